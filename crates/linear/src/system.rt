// A system of at most 64 linear equations in at most 64 unknowns.
ghost use Rattle.std.specs.Prelude.{◌≡◌, ◌≤◌, length};

mod building;
mod echelon;
mod elimination;
mod solving;

use crate::row::Row;
use field::modulus::Modulus;

// The largest number of equations, and of unknowns.
pub const LIMIT: usize = 64;

// The rows after the first `count` are not part of the system.
// Kept: the reader has no heap, so the rows are an array and a count and not a Vec.
#[derive(Drop)]
pub struct System<const P: u64> {
    modulus: Modulus<P>,
    unknowns: usize,
    count: usize,
    rows: [Row<P>; 64],
    ghost narrow: { unknowns ≤ 64 },
    ghost few: { count ≤ 64 },
    ghost sized: { length rows ≡ 64 },
}

// Why a row is not taken into a system.
#[derive(Clone, Copy, PartialEq, Eq, Debug)]
pub enum Refusal {
    // It has not as many coefficients as the system has unknowns.
    Length,
    // The system has 64 rows already.
    Full,
}
