// What is done at a desk: it is opened, a number comes, a number goes, and it answers with its letter.
ghost use Rattle.std.specs.Prelude.{◌≡◌, ◌<◌, ◌≤◌, true, false, IfOk, MatchOption, MatchResult};
ghost use Rattle.sorted.specs.Lists.{has};
ghost use Rattle.letter.specs.Desks.{desk_of, desk_size, Opened, NotOpened, Barred, Welcome, Came, NotCame, Went, NotWent, DeedDone, DeedNotDone, Told, UpToDate};
ghost use Rattle.letter.specs.Letter.{letter};
ghost use Rattle.letter.specs.Letters.{letter_of};
ghost use Rattle.sorted.specs.Sorted.{items_of};

use crate::desks::{CAPACITY, Deed, Desk};
use crate::letters::Letter;
use crate::refusals::Refusal;
use crate::row::Row;
use field::modulus::Modulus;
use field::residue::Residue;
use field::tally::Tally;
use sorted::SortedList;
use std::alloc::{AllocError, Global};

// Kept: each deed's contract names `size`, which compares with the desk before, so that no type can say it, and `right`,
// a promise that public calls have to name.
impl<const P: u64> Desk<P> {
    // A desk with nothing on its list, for letters of up to m values.
    pub fn open(modulus: Modulus<P>, m: u64, heap: Global) -> Result<Desk<P>, Refusal>
        ensures { MatchResult result (Opened P m) (NotOpened P m) }
    {
        let Some(nodes) = Row::points_for(modulus, m) else {
            return Err(Refusal::Letter(0));
        };
        let kept = Row::ones(modulus, nodes.len());
        let list = SortedList::new(heap);
        Ok(Desk {
            modulus,
            nodes,
            kept,
            list,
        })
    }

    // The same desk, with a list in memory of its own.
    // Kept: a struct that is not `Copy` and has a ghost field derives no `Clone`.
    pub fn copied(&self, heap: Global) -> Result<Desk<P>, AllocError>
        ensures { IfOk result (λ d. (desk_of d ≡ desk_of self.now) × (desk_size d ≡ desk_size self.now)) }
    {
        let list = self.list.copied(heap)?;
        Ok(Desk {
            modulus: self.modulus,
            nodes: self.nodes,
            kept: self.kept,
            list,
        })
    }

    // The modulus.
    pub fn modulus(&self) -> Modulus<P> {
        self.modulus
    }

    // How many values the letter that is kept has.
    pub fn size(&self) -> usize
        ensures { result ≡ desk_size self.now }
    {
        self.nodes.len()
    }

    // The numbers on the list, by rising number.
    pub fn list(&self) -> &[u64]
        ensures { result.now ≡ (desk_of self.now).list }
    {
        self.list.as_slice()
    }

    // A number that may come, modulo P: it is below the points and not on the list.
    fn newcomer(&self, n: u64) -> Option<Residue<P>>
        ensures { MatchOption result (Barred P (desk_size self.now) (items_of self.now.list) n) (λ x. Welcome P (desk_size self.now) (items_of self.now.list) n x.value) }
    {
        let m = self.nodes.len() as u64;
        if n >= P - m || self.list.contains(n) {
            return None;
        }
        Some(Residue::new(self.modulus, n))
    }

    // A number comes: the letter is made anew by a product with z - n at each point z.
    pub fn comes(&mut self, n: u64, tally: &mut Tally) -> Result<(), Refusal>
        ensures done { MatchResult result (λ _. Came P (desk_size self.old) n (desk_of self.old) (desk_of self.new) tally.old.products tally.new.products) (NotCame P (desk_size self.old) n (desk_of self.old) (desk_of self.new) tally.old.products tally.new.products) }
        ensures size { desk_size self.new ≡ desk_size self.old }
        ensures right { UpToDate P (desk_size self.new) (desk_of self.new) }
    {
        let Some(residue) = self.newcomer(n) else {
            return Err(Refusal::Comes(n));
        };
        if self.list.len() >= CAPACITY {
            return Err(Refusal::Full);
        }
        self.list.insert(n)?;
        self.kept = self.kept.times_each(self.nodes, residue, tally);
        Ok(())
    }

    // A number that may go, modulo P: it is on the list.
    fn member(&self, n: u64) -> Option<Residue<P>>
        ensures { MatchOption result (has (items_of self.now.list) n ≡ false) (λ x. (has (items_of self.now.list) n ≡ true) × (x.value ≡ n)) }
    {
        self.list
            .contains(n)
            .then_some(Residue::new(self.modulus, n))
    }

    // A number goes: the letter is made anew by a product with the inverse of z - n at each point z.
    pub fn goes(&mut self, n: u64, tally: &mut Tally) -> Result<(), Refusal>
        ensures done { MatchResult result (λ _. Went P (desk_size self.old) n (desk_of self.old) (desk_of self.new) tally.old.products tally.new.products) (NotWent n (desk_of self.old) (desk_of self.new) tally.old.products tally.new.products) }
        ensures size { desk_size self.new ≡ desk_size self.old }
        ensures right { UpToDate P (desk_size self.new) (desk_of self.new) }
    {
        let Some(residue) = self.member(n) else {
            return Err(Refusal::Goes(n));
        };
        let _ = self.list.remove(n);
        self.kept = self.kept.undo_each(self.nodes, residue, tally);
        Ok(())
    }

    // A deed is done: its number comes, or goes.
    pub fn does(&mut self, deed: Deed, tally: &mut Tally) -> Result<(), Refusal>
        ensures done { MatchResult result (λ _. DeedDone P (desk_size self.old) deed (desk_of self.old) (desk_of self.new) tally.old.products tally.new.products) (DeedNotDone P (desk_size self.old) deed (desk_of self.old) (desk_of self.new) tally.old.products tally.new.products) }
        ensures size { desk_size self.new ≡ desk_size self.old }
        ensures right { UpToDate P (desk_size self.new) (desk_of self.new) }
    {
        match deed {
            Deed::Comes(n) => self.comes(n, tally),
            Deed::Goes(n) => self.goes(n, tally),
        }
    }

    // The letter of the list with m values, a beginning of the row that is kept.
    pub fn letter(&self, m: u64) -> Result<Letter<P>, Refusal>
        ensures { MatchResult result (λ l. (m ≤ desk_size self.now) × (letter_of l ≡ letter P m (desk_of self.now).list)) (λ e. (desk_size self.now < m) × Told 1 0 e) }
    {
        if m > self.nodes.len() as u64 {
            return Err(Refusal::Letter(0));
        }
        let values = self.kept.beginning(m as usize);
        Ok(Letter::new(self.list.len() as u64, values))
    }
}
