// Why a request is refused.
ghost use Rattle.std.specs.Prelude.{◌≡◌, Some};
ghost use Rattle.letter.specs.Refusals.{number, place, refusal_text};

use crate::desks::CAPACITY;
use std::fmt;

#[derive(Clone, Copy, PartialEq, Eq, Debug)]
pub enum Refusal {
    // A letter is cut short, has too many values, or says a number that is too large: the first such place.
    Letter(u64),
    // A list is cut short, does not rise, or has a number that is too large: the first such place.
    List(u64),
    // An allowance above the number of values.
    Allowance(u64),
    // A lent row that is too short: its length.
    Short(u64),
    // A number comes that is too large or there.
    Comes(u64),
    // A number goes that is not there.
    Goes(u64),
    // The list is full.
    Full,
    // No such site, or a site asks itself.
    Site(u64),
    // No memory is to be had.
    Memory,
}

impl Refusal {
    // The number by which the refusal is told; 0 for want of memory, which is told by a word.
    // Kept: refusals are told to C and in lines by a number, and this one definition gives each refusal's.
    pub fn number(self) -> u64
        ensures { result ≡ number self }
    {
        match self {
            Refusal::Letter(_) => 1,
            Refusal::List(_) => 2,
            Refusal::Allowance(_) => 3,
            Refusal::Short(_) => 4,
            Refusal::Comes(_) => 5,
            Refusal::Goes(_) => 6,
            Refusal::Full => 7,
            Refusal::Site(_) => 8,
            Refusal::Memory => 0,
        }
    }

    // The place by which it is told.
    pub fn place(self) -> u64
        ensures { result ≡ place self }
    {
        match self {
            Refusal::Letter(place)
            | Refusal::List(place)
            | Refusal::Allowance(place)
            | Refusal::Short(place)
            | Refusal::Comes(place)
            | Refusal::Goes(place)
            | Refusal::Site(place) => place,
            Refusal::Full => CAPACITY as u64,
            Refusal::Memory => 0,
        }
    }
}

impl fmt::Display for Refusal {
    ghost output = { λ e. Some (refusal_text e) };

    fn fmt<W: fmt::Write>(&self, f: &mut fmt::Formatter<W>) -> fmt::Result {
        match self {
            Refusal::Memory => f.write_str("out of memory"),
            _ => {
                let number = self.number();
                let place = self.place();
                write!(f, "refused {number} at {place}")
            }
        }
    }
}
