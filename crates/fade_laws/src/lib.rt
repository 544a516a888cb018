// No code: what is proved of the doubles that the fade multiplies and of the fade. To read: specs/Laws, the statements; proofs/Laws.
#![tactic(auto)]
