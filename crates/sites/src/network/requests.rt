// What is asked of several sites.
ghost use Rattle.std.specs.Prelude.{◌≡◌, ◌<◌, ◌≤◌, ◌⊎◌, length, MatchResult};
ghost use Rattle.letter.specs.Desks.{Told, deed_of};
ghost use Rattle.letter.specs.Letter.{comes, goes, letter};
ghost use Rattle.letter.specs.Letters.{letter_of};
ghost use Rattle.sites.specs.Network.{Absent, NotOpened, NotPassed, Opened, Passed, Right, list_at, lists_of};
ghost use Rattle.sites.specs.Site.{site_list};

use crate::network::Sites;
use crate::site::Site;
use field::modulus::Modulus;
use field::tally::Tally;
use letter::desks::Deed;
use letter::letters::Letter;
use letter::refusals::Refusal;
use std::alloc::{AllocError, Global};

// How many sites there may be.
pub const FEWEST: u64 = 2;

pub const MOST: u64 = 40;

impl<const P: u64> Sites<P> {
    // n sites with nothing on their lists.
    pub fn open(modulus: Modulus<P>, n: u64, heap: Global) -> Result<Sites<P>, Refusal>
        ensures { MatchResult result (Opened P n) (NotOpened P n) }
    {
        if n < FEWEST || n > MOST {
            return Err(Refusal::Site(n));
        }
        let mut sites = Vec::new(heap);
        for _k in 0..n {
            let site = Site::open(modulus, heap)?;
            sites.push(site).map_err(AllocError::from)?;
        }
        Ok(Sites { sites })
    }

    // How many sites there are.
    pub fn len(&self) -> usize
        ensures { result ≡ length (lists_of self.now) }
    {
        self.sites.len()
    }

    // Site i.
    pub(crate) fn site(&self, i: u64) -> Result<&Site<P>, Refusal>
        ensures { MatchResult result (λ s. (i < length (lists_of self.now)) × (site_list s.now ≡ list_at (lists_of self.now) i)) (Absent (lists_of self.now) i) }
    {
        self.sites.get(i as usize).ok_or(Refusal::Site(i))
    }

    // The numbers on the list of site i, by rising number.
    pub fn list(&self, i: u64) -> Result<&[u64], Refusal>
        ensures { MatchResult result (λ s. (i < length (lists_of self.now)) × (s.now ≡ list_at (lists_of self.now) i)) (Absent (lists_of self.now) i) }
    {
        Ok(self.site(i)?.list())
    }

    // The letter of site i with m values.
    pub fn letter(&self, i: u64, m: u64) -> Result<Letter<P>, Refusal>
        ensures { MatchResult result (λ l. (i < length (lists_of self.now)) × (m ≤ 64) × (letter_of l ≡ letter P m (list_at (lists_of self.now) i))) (λ e. Absent (lists_of self.now) i e ⊎ ((i < length (lists_of self.now)) × (64 < m) × Told 1 0 e)) }
    {
        self.site(i)?.letter(m)
    }

    // A deed is done at site i: its number comes, or goes.
    // Kept: `right` stands in the contract of each deed, since public calls have to name that promise.
    pub fn does(&mut self, i: u64, deed: Deed, tally: &mut Tally) -> Result<(), Refusal>
        ensures done { MatchResult result (λ _. Passed P i (deed_of deed) (lists_of self.old) (lists_of self.new) tally.old.products tally.new.products) (NotPassed P i (deed_of deed) (lists_of self.old) (lists_of self.new)) }
        ensures right { Right self.new }
    {
        let Some(site) = self.sites.get_mut(i as usize) else {
            return Err(Refusal::Site(i));
        };
        site.does(deed, tally)
    }

    // A number comes at site i.
    pub fn comes(&mut self, i: u64, n: u64, tally: &mut Tally) -> Result<(), Refusal>
        ensures done { MatchResult result (λ _. Passed P i (comes n) (lists_of self.old) (lists_of self.new) tally.old.products tally.new.products) (NotPassed P i (comes n) (lists_of self.old) (lists_of self.new)) }
        ensures right { Right self.new }
    {
        self.does(i, Deed::Comes(n), tally)
    }

    // A number goes at site i.
    pub fn goes(&mut self, i: u64, n: u64, tally: &mut Tally) -> Result<(), Refusal>
        ensures done { MatchResult result (λ _. Passed P i (goes n) (lists_of self.old) (lists_of self.new) tally.old.products tally.new.products) (NotPassed P i (goes n) (lists_of self.old) (lists_of self.new)) }
        ensures right { Right self.new }
    {
        self.does(i, Deed::Goes(n), tally)
    }
}
