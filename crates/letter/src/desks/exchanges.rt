// Several deeds at a desk, all of them or none.
ghost use Rattle.std.specs.Prelude.{◌≡◌, ℕ, map, MatchResult};
ghost use Rattle.letter.specs.Desks.{desk_of, desk_size, UpToDate};
ghost use Rattle.letter.specs.Exchanges.{AllDone, Exchanged, Makes, NotExchanged, Stopped};
ghost use Rattle.letter.specs.Letter.{Deed as Said};

use crate::desks::{Deed, Desk};
use crate::refusals::Refusal;
use field::tally::Tally;
use std::alloc::Global;

impl<const P: u64> Desk<P> {
    // A deed is done with each of the numbers, one after the other, up to the first that cannot be done.
    fn each<F: Fn(u64) -> Deed>(
        &mut self,
        deed: F,
        numbers: &[u64],
        tally: &mut Tally,
    ) -> Result<(), Refusal>
        requires { (n : ℕ) → F.pre deed n }
        ensures done { (w : ℕ → Said) → Makes (F.post deed) w → MatchResult result (λ _. AllDone P (desk_size self.old) (map w numbers.now) (desk_of self.old).list (desk_of self.new).list tally.old.products tally.new.products) (λ e. Stopped P (desk_size self.old) (desk_of self.old).list (map w numbers.now) e) }
        ensures size { desk_size self.new ≡ desk_size self.old }
    {
        for n in numbers {
            self.does(deed(*n), tally)?;
        }
        Ok(())
    }

    // The numbers gone go, and then the numbers come come: all of them, or nothing changes. A copy of the list takes the deeds, so
    // that one that cannot be done leaves no trace of those before it.
    pub fn exchange(
        &mut self,
        gone: &[u64],
        come: &[u64],
        tally: &mut Tally,
        heap: Global,
    ) -> Result<(), Refusal>
        ensures done { MatchResult result (λ _. Exchanged P (desk_size self.old) gone.now come.now (desk_of self.old) (desk_of self.new) tally.old.products tally.new.products) (NotExchanged P (desk_size self.old) gone.now come.now (desk_of self.old) (desk_of self.new) tally.old.products tally.new.products) }
        ensures size { desk_size self.new ≡ desk_size self.old }
        ensures right { UpToDate P (desk_size self.new) (desk_of self.new) }
    {
        let mut copy = self.copied(heap)?;
        let mut count = *tally;
        copy.each(Deed::Goes, gone, &mut count)?;
        copy.each(Deed::Comes, come, &mut count)?;
        *self = copy;
        *tally = count;
        Ok(())
    }
}
