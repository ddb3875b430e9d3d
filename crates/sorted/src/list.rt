// What a sorted list can do: search, insertion, removal, difference, union, count of differences.
ghost use Rattle.std.specs.Prelude.{◌≡◌, true, [], length, IfOk, MatchResult};
ghost use Rattle.sorted.specs.Edits.{Apart, Found, Gap, Inserts, OnlyIn, Removed};
ghost use Rattle.sorted.specs.Lists.{has, put_all, rising};
ghost use Rattle.sorted.specs.Merged.{Split};
ghost use Rattle.sorted.specs.Sorted.{MadeOf, NotMade, items_of};

use crate::apart::count_differences;
use crate::fault::first_fault;
use crate::merge::{Merge, Side};
use crate::{FromSliceError, SortedList, slices};
use std::alloc::{AllocError, Global};

impl SortedList {
    // A list with nothing in it.
    pub fn new(heap: Global) -> SortedList
        ensures { items_of result ≡ [] }
    {
        SortedList {
            items: Vec::new(heap),
        }
    }

    // The list of the numbers in a slice, if they rise and are below the bound.
    pub fn from_slice(heap: Global, list: &[u64], bound: u64) -> Result<SortedList, FromSliceError>
        ensures { MatchResult result (MadeOf bound list.now) (NotMade bound list.now) }
    {
        if let Some(place) = first_fault(list, bound) {
            return Err(FromSliceError::Fault(place));
        }
        let items = Vec::from_slice(heap, list)?;
        Ok(SortedList { items })
    }

    // The same list, in memory of its own.
    // Kept: a struct that is not `Copy` and has a ghost field derives no `Clone`, and an impl by hand is these lines and two members more.
    pub fn copied(&self, heap: Global) -> Result<SortedList, AllocError>
        ensures { IfOk result (λ l. items_of l ≡ items_of self.now) }
    {
        let items = Vec::from_slice(heap, self.as_slice())?;
        Ok(SortedList { items })
    }

    // How many numbers there are.
    pub fn len(&self) -> usize
        ensures { result ≡ length (items_of self.now) }
    {
        self.items.len()
    }

    // The numbers, by rising number.
    pub fn as_slice(&self) -> &[u64]
        ensures value { result.now ≡ items_of self.now }
        ensures rises { rising result.now ≡ true }
    {
        self.items.as_slice()
    }

    // The place of n, or the place where n would stand.
    fn search(&self, n: u64) -> Result<usize, usize>
        ensures { MatchResult result (Found n (items_of self.now)) (Gap n (items_of self.now)) }
    {
        slices::search(self.as_slice(), n)
    }

    // Whether n is there.
    pub fn contains(&self, n: u64) -> bool
        ensures { result ≡ has (items_of self.now) n }
    {
        self.search(n).is_ok()
    }

    // Puts n in, and says whether it came or was there. For want of memory nothing changes.
    pub fn insert(&mut self, n: u64) -> Result<bool, AllocError>
        ensures { Inserts n (items_of self.old) (items_of self.new) result }
    {
        match self.search(n) {
            Ok(_) => Ok(false),
            Err(place) => {
                self.items.insert(place, n)?;
                Ok(true)
            }
        }
    }

    // Takes n out, and says whether it was there.
    pub fn remove(&mut self, n: u64) -> bool
        ensures { Removed n (items_of self.old) (items_of self.new) result }
    {
        match self.search(n) {
            Ok(place) => {
                self.items.remove(place);
                true
            }
            Err(_) => false,
        }
    }

    // The numbers up to the last of the other list's, and those beyond all of the other list.
    fn split_beyond(&self, other: &SortedList) -> (&[u64], &[u64])
        ensures { Split (items_of self.now) (items_of other.now) result.0.now result.1.now }
    {
        let numbers = self.as_slice();
        let Some(last) = other.as_slice().last() else {
            return (&[], numbers);
        };
        numbers.split_at(numbers.partition_point(|n| *n <= *last))
    }

    // What of this list is not in the other. Put into the other, less what this list has not, it makes this list.
    pub fn difference(&self, other: &SortedList, heap: Global) -> Result<SortedList, AllocError>
        ensures { IfOk result (λ l. OnlyIn (items_of self.now) (items_of other.now) (items_of l)) }
    {
        let (left, beyond) = self.split_beyond(other);
        let (right, _) = other.split_beyond(self);
        let mut items: Vec<u64> = Merge { left, right }
            .filter(|(side, _)| *side == Side::Left)
            .map(|(_, n)| n)
            .collect(heap)?;
        items.extend_from_slice(beyond)?;
        Ok(SortedList { items })
    }

    // What is in this list, in the other or in both.
    pub fn union(&self, other: &SortedList, heap: Global) -> Result<SortedList, AllocError>
        ensures { IfOk result (λ l. items_of l ≡ put_all (items_of self.now) (items_of other.now)) }
    {
        let (left, left_beyond) = self.split_beyond(other);
        let (right, right_beyond) = other.split_beyond(self);
        let mut items: Vec<u64> = Merge { left, right }.map(|(_, n)| n).collect(heap)?;
        items.extend_from_slice(left_beyond)?;
        items.extend_from_slice(right_beyond)?;
        Ok(SortedList { items })
    }

    // How many numbers are in one of the two lists and not in the other.
    pub fn differ(&self, other: &SortedList) -> usize
        ensures { Apart (items_of self.now) (items_of other.now) result }
    {
        count_differences(self.as_slice(), other.as_slice())
    }
}
