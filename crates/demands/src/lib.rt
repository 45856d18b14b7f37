// The three demands, stated and proved: specs/ says them, proofs/ proves them. No code.
#![tactic(auto)]
