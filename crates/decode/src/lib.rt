// Reading a letter beside a list: which numbers are gone, and which have come.
#![tactic(auto)]

pub mod beside;
mod build;
mod check;
mod decoding;
mod degrees;
pub mod entry;
mod evaluate;
pub mod numbers;
mod polynomial;
mod question;
mod roots;
pub mod theorems;

pub use beside::difference_beside;
pub use entry::{Reply, read_beside, read_letter, read_modulo};
pub use numbers::Difference;
