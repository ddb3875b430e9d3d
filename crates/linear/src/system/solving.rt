// The solver: elimination, the test whether there is a solution, and back substitution.
ghost use Rattle.std.specs.Option.{MatchOption};
ghost use Rattle.linear.specs.System.{IsSolution, Unsolvable};
ghost use Rattle.linear.specs.Systems.{equations, values_of};

use crate::solution::Solution;
use crate::system::System;

impl<const P: u64> System<P> {
    // A solution, or none if there is none.
    pub fn solve(mut self) -> Option<Solution<P>>
        ensures { MatchOption result (Unsolvable P self.entry.unknowns (equations self.entry)) (λ s. IsSolution P self.entry.unknowns (equations self.entry) (values_of s)) }
    {
        let echelon = self.eliminate();
        if echelon.is_inconsistent() {
            return None;
        }
        Some(echelon.substitute())
    }
}
