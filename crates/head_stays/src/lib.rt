// No code: the head stays whole, and the store well, through every call that writes them. To read: specs/Whole, Ranges and Homed, the
// statements; proofs/Stays, `stays`; proofs/Homed, `homes`.
#![tactic(auto)]
