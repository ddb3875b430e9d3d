// Letters and lists in lent slices of words: reading them with all checks, and writing them.
ghost use Rattle.std.specs.Prelude.{◌≡◌, ◌+◌, length, MatchResult};
ghost use Rattle.letter.specs.Rows.{numbers};
ghost use Rattle.letter.specs.Steps.{LetterOf, NoLetterOf};
ghost use Rattle.letter.specs.Slices.{list_in, LetterRead, LetterRefused, ListSound, ListRefused, LetterWritten, ListWritten, TooShort};

use crate::letters::Letter;
use crate::refusals::Refusal;
use crate::row::{MOST_VALUES, Row};
use field::modulus::Modulus;
use sorted::first_fault;

// The letter at the beginning of a slice, or its first place at fault.
pub fn read_letter<const P: u64>(modulus: Modulus<P>, note: &[u64]) -> Result<Letter<P>, Refusal>
    ensures { MatchResult result (LetterRead P note.now) (LetterRefused P note.now) }
{
    let [m, rest @ ..] = note else {
        return Err(Refusal::Letter(0));
    };
    if *m > MOST_VALUES as u64 || *m >= P {
        return Err(Refusal::Letter(0));
    }
    let [count, values @ ..] = rest else {
        return Err(Refusal::Letter(1));
    };
    if *count > P {
        return Err(Refusal::Letter(1));
    }
    let row = Row::read(modulus, values, *m as usize).map_err(|i| Refusal::Letter(2 + i as u64))?;
    Ok(Letter::new(*count, row))
}

// The numbers of the list at the beginning of a slice, or its first place at fault.
pub fn list_in(here: &[u64], bound: u64) -> Result<&[u64], Refusal>
    ensures { MatchResult result (λ s. (s.now ≡ list_in here.now) × ListSound bound here.now) (ListRefused bound here.now) }
{
    let [count, rest @ ..] = here else {
        return Err(Refusal::List(0));
    };
    let there = rest.len().min(*count as usize);
    let list = &rest[..there];
    if let Some(i) = first_fault(list, bound) {
        return Err(Refusal::List(1 + i as u64));
    }
    if there < *count as usize {
        return Err(Refusal::List(here.len() as u64));
    }
    Ok(list)
}

// The letter with m values of the list at the beginning of a slice, made from all its numbers.
pub fn letter_of<const P: u64>(
    modulus: Modulus<P>,
    here: &[u64],
    m: u64,
) -> Result<Letter<P>, Refusal>
    ensures { MatchResult result (LetterOf P m here.now) (NoLetterOf P m here.now) }
{
    let Some(nodes) = Row::points_for(modulus, m) else {
        return Err(Refusal::Letter(0));
    };
    let list = list_in(here, P - m)?;
    let values = Row::values_of(modulus, nodes, list);
    Ok(Letter::new(list.len() as u64, values))
}

// Writes a letter to the beginning of a slice: how many words that took.
pub fn write_letter<const P: u64>(letter: Letter<P>, out: &mut [u64]) -> Result<usize, Refusal>
    ensures { MatchResult result (LetterWritten letter.entry.values.len letter.entry.count (numbers letter.entry.values) out.old out.new) (TooShort (2 + letter.entry.values.len) out.old out.new) }
{
    let values = letter.values();
    let m = values.len();
    if out.len() < 2 + m {
        return Err(Refusal::Short(out.len() as u64));
    }
    out[0] = m as u64;
    out[1] = letter.count();
    values.write(&mut out[2..]);
    Ok(2 + m)
}

// Writes the count and the numbers of a list to the beginning of a slice: how many words that took.
pub fn write_list(list: &[u64], out: &mut [u64]) -> Result<usize, Refusal>
    ensures { MatchResult result (ListWritten list.now out.old out.new) (TooShort (1 + length list.now) out.old out.new) }
{
    let count = list.len();
    if out.len() <= count {
        return Err(Refusal::Short(out.len() as u64));
    }
    out[0] = count as u64;
    out[1..1 + count].copy_from_slice(list);
    Ok(1 + count)
}
