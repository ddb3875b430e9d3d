// A letter: how many numbers a list has, and its values at the points.
ghost use Rattle.std.specs.Prelude.{◌≡◌};

use crate::row::Row;

mod steps;

#[derive(Clone, Copy)]
pub struct Letter<const P: u64> {
    count: u64,
    values: Row<P>,
}

impl<const P: u64> Letter<P> {
    pub(crate) fn new(count: u64, values: Row<P>) -> Letter<P>
        ensures { (result.count ≡ count) × (result.values ≡ values.entry) }
    {
        Letter { count, values }
    }

    // How many numbers the list has.
    pub fn count(self) -> u64
        ensures { result ≡ self.entry.count }
    {
        self.count
    }

    // The values at the points.
    pub fn values(self) -> Row<P>
        ensures { result ≡ self.entry.values }
    {
        self.values
    }
}
