// A row of up to sixty-four numbers modulo P: the points of a letter, or its values there.
ghost use Rattle.std.specs.Prelude.{◌≡◌, ◌≤◌, length};

use field::residue::Residue;

mod reads;
mod steps;

// The most values that a letter has.
pub const MOST_VALUES: usize = 64;

// Kept: an array of sixty-four with its length; a letter's values are a struct by value, and no memory is taken for them.
#[derive(Clone, Copy)]
pub struct Row<const P: u64> {
    at: [Residue<P>; MOST_VALUES],
    len: usize,
    ghost sized: { length at ≡ 64 },
    ghost few: { len ≤ 64 },
}
