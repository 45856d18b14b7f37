// The steps of a plan on lent bytes: definitions and laws, no code.
#![tactic(auto)]
