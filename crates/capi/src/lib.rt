// The calls for C: numbers and lent slices of words go in, and one number comes back. A slice crosses as a pointer and
// then its length. All state is in the lent words; nothing is kept and no memory is asked for.
#![tactic(auto)]

mod answers;
mod calls;
mod deeds;
pub mod theorems;

pub use calls::{ridgeweek_comes, ridgeweek_goes, ridgeweek_letter, ridgeweek_read};
