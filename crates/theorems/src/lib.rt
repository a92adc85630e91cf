// Demand 3, and what an opening depends on, claimed of the calls' contracts; that no opening needs fewer nodes than the planned ones, and how far one hidden index moves
// their count. The statements stand in ../specs, their proofs in ../proofs.
#![tactic(auto)]
