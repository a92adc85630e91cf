// Laws of planning, in ../proofs: ancestors, covered and revealed nodes over a list of hidden leaves, and the numbers that a shape gives.
#![tactic(auto)]
