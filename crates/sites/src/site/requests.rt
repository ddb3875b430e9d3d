// What is done at a site.
ghost use Rattle.std.specs.Prelude.{◌≡◌, ◌<◌, ◌≤◌, [], MatchResult};
ghost use Rattle.letter.specs.Desks.{Told, deed_of};
ghost use Rattle.letter.specs.Exchanges.{Done, NotDone};
ghost use Rattle.letter.specs.Letter.{comes, goes, letter};
ghost use Rattle.letter.specs.Letters.{letter_of};
ghost use Rattle.sites.specs.Site.{site_list};

use crate::site::Site;
use field::modulus::Modulus;
use field::tally::Tally;
use letter::desks::{Deed, Desk};
use letter::letters::Letter;
use letter::refusals::Refusal;
use std::alloc::Global;

impl<const P: u64> Site<P> {
    // A site with nothing on its list; refused where the modulus is too small for sixty-four values.
    pub fn open(modulus: Modulus<P>, heap: Global) -> Result<Site<P>, Refusal>
        ensures { MatchResult result (λ s. (64 < P) × (site_list s ≡ [])) (λ e. (P ≤ 64) × Told 1 0 e) }
    {
        let desk = Desk::open(modulus, 64, heap)?;
        Ok(Site { desk })
    }

    // A deed is done: its number comes, or goes.
    pub fn does(&mut self, deed: Deed, tally: &mut Tally) -> Result<(), Refusal>
        ensures { MatchResult result (λ _. Done P 64 (deed_of deed) (site_list self.old) (site_list self.new) tally.old.products tally.new.products) (NotDone P 64 (deed_of deed) (site_list self.old) (site_list self.new)) }
    {
        self.desk.does(deed, tally)
    }

    // A number comes.
    pub fn comes(&mut self, n: u64, tally: &mut Tally) -> Result<(), Refusal>
        ensures { MatchResult result (λ _. Done P 64 (comes n) (site_list self.old) (site_list self.new) tally.old.products tally.new.products) (NotDone P 64 (comes n) (site_list self.old) (site_list self.new)) }
    {
        self.does(Deed::Comes(n), tally)
    }

    // A number goes.
    pub fn goes(&mut self, n: u64, tally: &mut Tally) -> Result<(), Refusal>
        ensures { MatchResult result (λ _. Done P 64 (goes n) (site_list self.old) (site_list self.new) tally.old.products tally.new.products) (NotDone P 64 (goes n) (site_list self.old) (site_list self.new)) }
    {
        self.does(Deed::Goes(n), tally)
    }

    // The numbers on the list, by rising number.
    pub fn list(&self) -> &[u64]
        ensures { result.now ≡ site_list self.now }
    {
        self.desk.list()
    }

    // The letter of the list with m values.
    pub fn letter(&self, m: u64) -> Result<Letter<P>, Refusal>
        ensures { MatchResult result (λ l. (m ≤ 64) × (letter_of l ≡ letter P m (site_list self.now))) (λ e. (64 < m) × Told 1 0 e) }
    {
        self.desk.letter(m)
    }
}
