// What a reading starts from: a letter beside a list, and how many numbers may differ.
ghost use Rattle.std.specs.Prelude.{◌≡◌, ◌-◌, ◌<◌, ◌≤◌, true};
ghost use Rattle.letter.specs.Letter.{points, values};
ghost use Rattle.letter.specs.Rows.{numbers};
ghost use Rattle.sorted.specs.Lists.{all_below, rising};

use field::modulus::Modulus;
use field::residue::Residue;
use letter::letters::Letter;
use letter::row::Row;

// The points, the letter, the values of the list here at the points, that list, and the allowance.
#[derive(Clone, Copy)]
pub(crate) struct Question<'a, const P: u64> {
    pub(crate) modulus: Modulus<P>,
    pub(crate) nodes: Row<P>,
    pub(crate) letter: Letter<P>,
    pub(crate) own: Row<P>,
    pub(crate) here: &'a [u64],
    pub(crate) d: u64,
    ghost room: { nodes.len < P },
    ghost spots: { numbers nodes ≡ points P nodes.len },
    ghost sent: { letter.values.len ≡ nodes.len },
    ghost size: { own.len ≡ nodes.len },
    ghost right: { numbers own ≡ values P (points P nodes.len) here.now },
    ghost rises: { rising here.now ≡ true },
    ghost below: { all_below (P - nodes.len) here.now ≡ true },
    ghost allowed: { d ≤ nodes.len },
}

// A point, with the letter's value there and that of the list here.
#[derive(Clone, Copy)]
pub(crate) struct Place<const P: u64> {
    pub(crate) z: Residue<P>,
    pub(crate) sent: Residue<P>,
    pub(crate) own: Residue<P>,
}

impl<const P: u64> Question<'_, P> {
    // What the numbers of a list are below: the smallest point.
    pub(crate) fn bound(&self) -> u64
        ensures { result ≡ P - self.now.nodes.len }
    {
        P - self.nodes.len() as u64
    }
}
