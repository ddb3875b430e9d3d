// Systems of linear equations modulo a prime: a solution, or that there is none.
#![tactic(auto)]

mod row;
pub mod solution;
pub mod system;
