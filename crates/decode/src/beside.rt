// A letter read beside a desk's own list.
ghost use Rattle.std.specs.Prelude.{MatchResult};
ghost use Rattle.decode.specs.Beside.{Read, Unread};
ghost use Rattle.letter.specs.Desks.{desk_of, desk_size};
ghost use Rattle.letter.specs.Letters.{letter_of};

use crate::numbers::Difference;
use crate::question::Question;
use letter::desks::Desk;
use letter::letters::Letter;
use letter::refusals::Refusal;
use letter::row::Row;

// What differs, if it is at most d numbers, with the values that the desk keeps and without going over the list to make them.
pub fn difference_beside<const P: u64>(
    desk: &Desk<P>,
    letter: Letter<P>,
    d: u64,
) -> Result<Option<Difference>, Refusal>
    ensures { MatchResult result (Read P letter.entry.values.len d (letter_of letter.entry) (desk_of desk.now).list (desk_size desk.now)) (Unread letter.entry.values.len d (desk_size desk.now)) }
{
    let m = letter.values().len() as u64;
    let kept = desk.letter(m)?;
    if d > m {
        return Err(Refusal::Allowance(d));
    }
    let question = Question {
        modulus: desk.modulus(),
        nodes: Row::points_for(desk.modulus(), m).unwrap(),
        letter,
        own: kept.values(),
        here: desk.list(),
        d,
    };
    Ok(question.difference())
}
