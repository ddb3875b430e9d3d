// What a site does with another one's letters.
ghost use Rattle.std.specs.Prelude.{◌≡◌, MatchOption, MatchResult};
ghost use Rattle.decode.specs.Numbers.{listed};
ghost use Rattle.sites.specs.Ladder.{Answers, Unanswered, rungs};
ghost use Rattle.sites.specs.Site.{site_list};
ghost use Rattle.sites.specs.Taking.{Untaken, taken_up};

use crate::ladder::{RUNGS, Reading, Way};
use crate::site::Site;
use decode::{Difference, difference_beside};
use field::tally::Tally;
use letter::refusals::Refusal;
use std::alloc::Global;

impl<const P: u64> Site<P> {
    // Asks the site there for letters with more and more values, until one can be read; none if even the longest cannot.
    pub fn climb(&self, there: &Site<P>) -> Option<Reading>
        ensures { MatchOption result (Unanswered P (site_list there.now) (site_list self.now) rungs) (Answers P (site_list there.now) (site_list self.now) rungs 0) }
    {
        let mut sent = 0;
        for &m in &RUNGS {
            let letter = there.desk.letter(m).unwrap();
            sent += m;
            let found = difference_beside(&self.desk, letter, m - 1).unwrap();
            if let Some(difference) = found {
                return Some(Reading {
                    values: m,
                    sent,
                    difference,
                });
            }
        }
        None
    }

    // Takes up what was read: the numbers gone go, unless the lists are put together, and the numbers come come.
    pub fn take_up(&mut self, difference: Difference, way: Way, heap: Global) -> Result<(), Refusal>
        ensures { MatchResult result (λ _. site_list self.new ≡ taken_up way (site_list self.old) (listed difference.gone) (listed difference.come)) (λ e. (site_list self.new ≡ site_list self.old) × Untaken P way (site_list self.old) (listed difference.gone) (listed difference.come) e) }
    {
        let mut tally = Tally::new();
        let gone = match way {
            Way::Take => difference.gone(),
            Way::Join => &[],
        };
        self.desk
            .exchange(gone, difference.come(), &mut tally, heap)
    }
}
