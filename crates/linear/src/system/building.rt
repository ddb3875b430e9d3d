// How a system is built: empty, then row by row.
ghost use Rattle.std.specs.Prelude.{◌<◌, MatchOption};
ghost use Rattle.field.specs.Plain.{plain};
ghost use Rattle.linear.specs.Systems.{Empty, Pushed};

use crate::row::Row;
use crate::system::{LIMIT, Refusal, System};
use field::modulus::Modulus;
use field::residue::Residue;

impl<const P: u64> System<P> {
    // A system with no rows yet; none for more than 64 unknowns.
    pub fn new(modulus: Modulus<P>, unknowns: usize) -> Option<System<P>>
        ensures { MatchOption result (64 < unknowns) (λ s. Empty unknowns s) }
    {
        if unknowns > LIMIT {
            return None;
        }
        let zero = Residue::new(modulus, 0);
        Some(System {
            modulus,
            unknowns,
            count: 0,
            rows: [Row::new(&[], zero); 64],
        })
    }

    // Adds the equation with these coefficients and this right side; where it is refused, the system stays as it was.
    pub fn push(&mut self, coefficients: &[Residue<P>], right: Residue<P>) -> Result<(), Refusal>
        ensures { Pushed (plain coefficients.now) right.entry.value self.old self.new result }
    {
        if coefficients.len() != self.unknowns {
            return Err(Refusal::Length);
        }
        if self.count == LIMIT {
            return Err(Refusal::Full);
        }
        self.rows[self.count] = Row::new(coefficients, right);
        self.count += 1;
        Ok(())
    }
}
