// What the calls on records give together, claimed of their contracts: the statements stand in ../specs, their proofs in ../proofs.
#![tactic(auto)]
