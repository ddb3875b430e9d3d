// Two rising lists gone through side by side, from their smallest numbers up.
ghost use Rattle.std.specs.Iterator.{YieldsFirst, item_count};
ghost use Rattle.sorted.specs.Merged.{left_to_merge};

use std::cmp::Ordering;

// Which of two lists a number stands in.
#[derive(Clone, Copy, PartialEq, Eq)]
pub(crate) enum Side {
    Left,
    Both,
    Right,
}

// What is still to come of two rising lists: their numbers by rising number, each once and with its side.
#[derive(Drop)]
pub(crate) struct Merge<'a> {
    pub(crate) left: &'a [u64],
    pub(crate) right: &'a [u64],
}

impl<'a> Iterator for Merge<'a> {
    type Item = (Side, u64);

    ghost next_gives = { YieldsFirst left_to_merge };

    ghost remaining = { item_count left_to_merge };

    fn next(&mut self) -> Option<(Side, u64)> {
        match (self.left, self.right) {
            ([], []) => None,
            ([n, rest @ ..], []) => {
                self.left = rest;
                Some((Side::Left, *n))
            }
            ([], [n, rest @ ..]) => {
                self.right = rest;
                Some((Side::Right, *n))
            }
            ([x, xs @ ..], [y, ys @ ..]) => match x.cmp(y) {
                Ordering::Less => {
                    self.left = xs;
                    Some((Side::Left, *x))
                }
                Ordering::Equal => {
                    self.left = xs;
                    self.right = ys;
                    Some((Side::Both, *x))
                }
                Ordering::Greater => {
                    self.right = ys;
                    Some((Side::Right, *y))
                }
            },
        }
    }
}
