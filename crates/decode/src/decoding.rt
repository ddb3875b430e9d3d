// The whole way from a letter and a list to what differs: sizes, equations, roots, and the check.
ghost use Rattle.std.specs.Prelude.{MatchOption, length};
ghost use Rattle.decode.specs.Beside.{Differs};
ghost use Rattle.decode.specs.Decoding.{Fitting, Only};
ghost use Rattle.decode.specs.Numbers.{listed};
ghost use Rattle.explain.specs.Explanation.{TooMany};
ghost use Rattle.letter.specs.Letters.{letter_of};

use crate::degrees::{Sizes, largest};
use crate::numbers::Difference;
use crate::polynomial::Polynomial;
use crate::question::Question;
use crate::roots::find_roots;

impl<const P: u64> Question<'_, P> {
    // The only numbers that can explain the letter, from the solution of the equations; none where there is no solution.
    fn candidate(&self, sizes: Sizes) -> Option<Difference>
        requires { Fitting self.now.letter.count (length self.now.here.now) self.now.d sizes }
        ensures { MatchOption result (TooMany P self.now.nodes.len self.now.d (letter_of self.now.letter) self.now.here.now) (λ f. Only P self.now.nodes.len self.now.d (letter_of self.now.letter) self.now.here.now (listed f.gone) (listed f.come)) }
    {
        let solution = self.equations(sizes).solve()?;
        let (first, second) = solution.values().split_at(sizes.gone);
        let gone = Polynomial::from_coefficients(self.modulus, first);
        let come = Polynomial::from_coefficients(self.modulus, second);
        Some(find_roots(self.modulus, gone, come, self.bound()))
    }

    // What differs, if it is at most d numbers: they explain the letter beside the list here, and nothing else does.
    pub(crate) fn difference(&self) -> Option<Difference>
        ensures { Differs P self.now.nodes.len self.now.d (letter_of self.now.letter) self.now.here.now result }
    {
        let sizes = largest(self.letter.count(), self.here.len() as u64, self.d)?;
        let found = self.candidate(sizes)?;
        self.is_found(&found).then_some(found)
    }
}
