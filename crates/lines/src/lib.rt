// The lines that programs print.
#![tactic(auto)]

ghost use Rattle.std.specs.Prelude.{◌≡◌, ◌++◌, IfOk, string_bytes};
ghost use Rattle.lines.specs.Text.{asked_text, difference_text, letter_text, list_text, malformed_text, not_understood_text, opened_text, spaced};
ghost use Rattle.letter.specs.Letters.{letter_of};
ghost use Rattle.letter.specs.Refusals.{refusal_text};
ghost use Rattle.letter.specs.Rows.{numbers};

use field::residue::Residue;
use letter::letters::Letter;
use letter::refusals::Refusal;
use std::alloc::{AllocError, Global};

// A line with each number after a space put to its end.
pub fn push_spaced(mut line: String, numbers: &[u64]) -> Result<String, AllocError>
    ensures { IfOk result (λ s. string_bytes s ≡ string_bytes line ++ spaced numbers.now) }
{
    for n in numbers {
        write!(line, " {n}")?;
    }
    Ok(line)
}

// A letter's line: its count and its values.
pub fn letter_line(heap: Global, count: u64, values: &[u64]) -> Result<String, AllocError>
    ensures { IfOk result (λ s. string_bytes s ≡ letter_text count values.now) }
{
    let line = format!(in heap; "{count}:")?;
    push_spaced(line, values)
}

// A list's line: its length and its numbers.
pub fn list_line(heap: Global, numbers: &[u64]) -> Result<String, AllocError>
    ensures { IfOk result (λ s. string_bytes s ≡ list_text numbers.now) }
{
    letter_line(heap, numbers.len() as u64, numbers)
}

// The values of a letter, as plain numbers.
fn values_of<const P: u64>(heap: Global, letter: Letter<P>) -> Result<Vec<u64>, AllocError>
    ensures { IfOk result (λ v. v.items ≡ numbers letter.entry.values) }
{
    let row = letter.values();
    row.as_slice()
        .iter()
        .copied()
        .map(Residue::number)
        .collect(heap)
}

// The line of a letter.
pub fn sent_line<const P: u64>(heap: Global, letter: Letter<P>) -> Result<String, AllocError>
    ensures { IfOk result (λ s. string_bytes s ≡ letter_text (letter_of letter.entry).many (letter_of letter.entry).at) }
{
    let values = values_of(heap, letter)?;
    letter_line(heap, letter.count(), values.as_slice())
}

// A refusal's line: its number and its place.
pub fn refusal_line(heap: Global, refusal: Refusal) -> Result<String, AllocError>
    ensures { IfOk result (λ s. string_bytes s ≡ refusal_text refusal) }
{
    format!(in heap; "{refusal}")
}

// The line of an input that makes no sense from a place on.
pub fn malformed_line(heap: Global, place: u64) -> Result<String, AllocError>
    ensures { IfOk result (λ s. string_bytes s ≡ malformed_text place) }
{
    format!(in heap; "malformed at {place}")
}

// The line of a difference: the numbers that are gone, and those that have come.
pub fn difference_line(heap: Global, gone: &[u64], come: &[u64]) -> Result<String, AllocError>
    ensures { IfOk result (λ s. string_bytes s ≡ difference_text gone.now come.now) }
{
    let line = String::from_str(heap, "gone")?;
    let mut line = push_spaced(line, gone)?;
    line.push_str(" come")?;
    push_spaced(line, come)
}

// The line of a site that asked: what is gone and what has come, the number of values of the letter that was read, and how many values were sent in all.
pub fn asked_line(
    heap: Global,
    gone: &[u64],
    come: &[u64],
    values: u64,
    sent: u64,
) -> Result<String, AllocError>
    ensures { IfOk result (λ s. string_bytes s ≡ asked_text gone.now come.now values sent) }
{
    let mut line = difference_line(heap, gone, come)?;
    write!(line, " by {values}, {sent} sent")?;
    Ok(line)
}

// The line of sites that are opened: how many.
pub fn opened_line(heap: Global, n: u64) -> Result<String, AllocError>
    ensures { IfOk result (λ s. string_bytes s ≡ opened_text n) }
{
    format!(in heap; "opened {n}")
}

// The line of a request that is not understood: which line of the input it is.
pub fn not_understood_line(heap: Global, n: u64) -> Result<String, AllocError>
    ensures { IfOk result (λ s. string_bytes s ≡ not_understood_text n) }
{
    format!(in heap; "not understood: line {n}")
}
