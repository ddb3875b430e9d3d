// Letters that are always up to date: rows of values, letters, and desks that keep one.
#![tactic(auto)]

pub mod desks;
pub mod letters;
mod memory;
pub mod refusals;
pub mod row;
pub mod slices;
pub mod theorems;
