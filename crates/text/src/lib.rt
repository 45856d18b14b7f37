// Lines of text: decimals, rows of bits: definitions and laws, no code.
#![tactic(auto)]
