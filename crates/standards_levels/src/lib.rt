// Known answers, in ../proofs, of the primitives that security levels 192 and 256 use: AES-192, AES-256, SHAKE256.
#![tactic(auto)]
