// Deeds at a desk: the bytes that ask for them, and the lines that answer.
ghost use Rattle.std.specs.Prelude.{◌≡◌, IfOk, string_bytes, MatchOption};
ghost use Rattle.desk_cli.specs.Kept.{kept_text};
ghost use Rattle.desk_cli.specs.Deeds.{Malformed, Says};
ghost use Rattle.letter.specs.Desks.{desk_of, desk_size};

use field::modulus::{PRIME, prime_65537};
use field::tally::Tally;
use letter::desks::{Deed, Desk};
use lines::{malformed_line, sent_line};
use std::alloc::{AllocError, Global};

// The deed that three bytes say: 0 for comes or 1 for goes, then the number in two bytes, the low one first.
fn deed_in(bytes: &[u8]) -> Option<Deed>
    ensures { MatchOption result (Malformed bytes.now) (Says bytes.now) }
{
    let [kind, low, high] = bytes else {
        return None;
    };
    let n = u64::from(u16::from_le_bytes([*low, *high]));
    match kind {
        0 => Some(Deed::Comes(n)),
        1 => Some(Deed::Goes(n)),
        _ => None,
    }
}

// Does the deeds after an input's first byte in turn, and says which are refused. Gives the place in the input of a deed that is malformed, if there is one.
fn serve(
    desk: &mut Desk<PRIME>,
    deeds: &[u8],
    output: &mut String,
) -> Result<Option<usize>, AllocError> {
    let mut tally = Tally::new();
    for (i, bytes) in deeds.chunks(3).enumerate() {
        let Some(deed) = deed_in(bytes) else {
            return Ok(Some(1 + 3 * i));
        };
        if let Err(refusal) = desk.does(deed, &mut tally) {
            writeln!(output, "{refusal}")?;
        }
    }
    Ok(None)
}

// The line of the letter that a desk keeps.
fn kept_line(heap: Global, desk: &Desk<PRIME>) -> Result<String, AllocError>
    ensures { IfOk result (λ s. string_bytes s ≡ kept_text (desk_size desk.now) (desk_of desk.now).list) }
{
    let letter = desk.letter(desk.size() as u64).unwrap();
    sent_line(heap, letter)
}

// What is printed for an input: its first byte says how many values the letter has, and the others are deeds.
pub fn answer(heap: Global, input: &[u8]) -> Result<String, AllocError> {
    let mut output = String::new(heap);
    // No byte at all is refused, as too many values are.
    let (m, deeds) = input.split_first().unwrap_or((&u8::MAX, &[]));
    match Desk::open(prime_65537(), u64::from(*m), heap) {
        Ok(mut desk) => {
            let line = match serve(&mut desk, deeds, &mut output)? {
                Some(place) => malformed_line(heap, place as u64)?,
                None => kept_line(heap, &desk)?,
            };
            writeln!(output, "{line}")?;
        }
        Err(refusal) => writeln!(output, "{refusal}")?,
    }
    Ok(output)
}
