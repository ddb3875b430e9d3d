// Letters that are asked for again with more values, until one can be read.
use decode::Difference;

// How many values letters are asked for with, one after the other.
pub const RUNGS: [u64; 5] = [4, 8, 16, 32, 64];

// What a letter told, after letters with fewer values had told that more differ.
#[derive(Clone, Copy)]
pub struct Reading {
    // How many values the letter has that was read.
    pub values: u64,
    // How many values were sent in all.
    pub sent: u64,
    pub difference: Difference,
}

// What is done with a list that was read.
#[derive(Clone, Copy, PartialEq, Eq, Debug)]
pub enum Way {
    // It is taken for the own list.
    Take,
    // It is put together with the own list.
    Join,
}
