// Rows from words, and into words.
ghost use Rattle.std.specs.Prelude.{◌≡◌, ◌+◌, ◌≤◌, ◌%◌, ◌<◌, ◌++◌, length, map, take, drop, MatchOption, MatchResult};
ghost use Rattle.field.specs.Plain.{plain};
ghost use Rattle.letter.specs.Rows.{numbers};
ghost use Rattle.letter.specs.Slices.{ValuesTo, ValueFault};

use crate::row::{MOST_VALUES, Row};
use field::modulus::Modulus;
use field::residue::Residue;

impl<const P: u64> Row<P> {
    // The words modulo P as a row; none for more than 64.
    pub fn reduced(modulus: Modulus<P>, words: &[u64]) -> Option<Row<P>>
        ensures { MatchOption result (64 < length words.now) (λ row. (row.len ≡ length words.now) × (numbers row ≡ map (λ n. n % P) words.now)) }
    {
        if words.len() > MOST_VALUES {
            return None;
        }
        let mut at = [Residue::new(modulus, 0); MOST_VALUES];
        // Kept: the places written are counted, here and in the loops like this one, since after a loop over `iter_mut().zip(..)` the proof does not know them.
        for (i, n) in words.iter().enumerate() {
            at[i] = Residue::new(modulus, *n);
        }
        Some(Row {
            at,
            len: words.len(),
        })
    }

    // The numbers as a slice.
    pub fn as_slice(&self) -> &[Residue<P>]
        ensures { plain result.now ≡ numbers self.now }
    {
        &self.at[..self.len]
    }

    // The first m words as a row, or the first of them that is missing or not below P.
    // Kept: a loop beside that of `reduced`; a search and then `reduced` takes each word's remainder, and a deed 0.48 microseconds, not 0.37.
    pub(crate) fn read(modulus: Modulus<P>, words: &[u64], m: usize) -> Result<Row<P>, usize>
        requires { m ≤ 64 }
        ensures { MatchResult result (λ row. (row.len ≡ m) × (numbers row ≡ take m words.now) × ValuesTo P words.now m) (ValueFault P words.now m) }
    {
        let there = &words[..words.len().min(m)];
        let mut at = [Residue::new(modulus, 0); MOST_VALUES];
        for (i, word) in there.iter().enumerate() {
            if *word >= P {
                return Err(i);
            }
            at[i] = Residue::new(modulus, *word);
        }
        if there.len() < m {
            return Err(there.len());
        }
        Ok(Row { at, len: m })
    }

    // Writes the numbers to the beginning of a slice.
    pub(crate) fn write(self, out: &mut [u64])
        requires { self.len ≤ length out.old }
        ensures { out.new ≡ numbers self.entry ++ drop self.entry.len out.old }
    {
        for (i, x) in self.as_slice().iter().enumerate() {
            out[i] = x.number();
        }
    }
}
