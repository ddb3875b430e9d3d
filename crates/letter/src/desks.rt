// A desk: a list with its letter, kept up to date with one product at each point for each number that comes or goes.
ghost use Rattle.std.specs.Prelude.{◌≡◌, ◌-◌, ◌<◌, ◌≤◌, true, length};
ghost use Rattle.letter.specs.Letter.{points, values};
ghost use Rattle.letter.specs.Rows.{numbers};
ghost use Rattle.sorted.specs.Lists.{all_below};
ghost use Rattle.sorted.specs.Sorted.{items_of};

use crate::row::Row;
use field::modulus::Modulus;
use sorted::SortedList;

mod deeds;
mod exchanges;

// The most numbers that a list at a desk has.
pub const CAPACITY: usize = 60000;

// The nodes are the points, and `kept` has the list's values there.
#[derive(Drop)]
pub struct Desk<const P: u64> {
    modulus: Modulus<P>,
    nodes: Row<P>,
    kept: Row<P>,
    list: SortedList,
    ghost room: { nodes.len < P },
    ghost spots: { numbers nodes ≡ points P nodes.len },
    ghost right: { numbers kept ≡ values P (points P nodes.len) (items_of list) },
    ghost size: { kept.len ≡ nodes.len },
    ghost below: { all_below (P - nodes.len) (items_of list) ≡ true },
    ghost few: { length (items_of list) ≤ 60000 },
}

// A number comes to a desk, or goes from it.
#[derive(Clone, Copy, PartialEq, Eq, Debug)]
pub enum Deed {
    Comes(u64),
    Goes(u64),
}
