// Numbers that are listed one after the other.
ghost use Rattle.std.specs.Prelude.{◌≡◌, ◌+◌, ◌<◌, [], ◌∷◌, ◌++◌};
ghost use Rattle.decode.specs.Numbers.{listed};

use crate::numbers::Numbers;

impl Numbers {
    // No numbers.
    pub(crate) fn none() -> Numbers
        ensures len { result.len ≡ 0 }
        ensures listed { listed result ≡ [] }
    {
        Numbers {
            at: [0; 64],
            len: 0,
        }
    }

    // These numbers, and x after them.
    pub(crate) fn push(self, x: u64) -> Numbers
        requires { self.len < 64 }
        ensures len { result.len ≡ self.len + 1 }
        ensures listed { listed result ≡ listed self ++ x ∷ [] }
    {
        let mut at = self.at;
        at[self.len] = x;
        Numbers {
            at,
            len: self.len + 1,
        }
    }
}
