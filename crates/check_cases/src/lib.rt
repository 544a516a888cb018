// Document 01's cases at the edges, as one table about the definitions. The work is in specs/ and proofs/.
#![tactic(auto)]
