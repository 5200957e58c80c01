// What the outcomes of tests tell: laws for the proofs of every crate. There is no code.
#![tactic(auto)]
