// The numbers of a difference, as slices.
ghost use Rattle.std.specs.Prelude.{◌≡◌};
ghost use Rattle.decode.specs.Numbers.{listed};

use crate::numbers::{Difference, Numbers};

impl Numbers {
    // The numbers, by rising number.
    fn as_slice(&self) -> &[u64]
        ensures { result.now ≡ listed self.now }
    {
        &self.at[..self.len]
    }
}

impl Difference {
    // The numbers gone from the list here, by rising number.
    pub fn gone(&self) -> &[u64]
        ensures { result.now ≡ listed self.now.gone }
    {
        self.gone.as_slice()
    }

    // The numbers that have come, by rising number.
    pub fn come(&self) -> &[u64]
        ensures { result.now ≡ listed self.now.come }
    {
        self.come.as_slice()
    }
}
