// A solution of a system: a value for each unknown.
ghost use Rattle.std.specs.Prelude.{◌≡◌, ◌≤◌, length, take};
ghost use Rattle.field.specs.Plain.{plain};

use field::residue::Residue;

// Kept: the reader has no heap, so the values are an array and a count and not a Vec.
#[derive(Clone, Copy)]
pub struct Solution<const P: u64> {
    pub(crate) values: [Residue<P>; 64],
    pub(crate) unknowns: usize,
    ghost sized: { length values ≡ 64 },
    ghost narrow: { unknowns ≤ 64 },
}

impl<const P: u64> Solution<P> {
    // The value of each unknown, in their order.
    pub fn values(&self) -> &[Residue<P>]
        ensures { plain result.now ≡ take self.now.unknowns (plain self.now.values) }
    {
        &self.values[..self.unknowns]
    }
}
