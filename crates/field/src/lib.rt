// Arithmetic modulo a prime.
#![tactic(auto)]

pub mod modulus;
pub mod residue;
pub mod tally;
pub mod theorems;
