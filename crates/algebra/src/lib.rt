// Numbers as vectors over GF(2), and matrices of them: definitions and laws, no code.
#![tactic(auto)]
