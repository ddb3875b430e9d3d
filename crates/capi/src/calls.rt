// The exported calls.
ghost use Rattle.capi.specs.Answers.{Coded};
ghost use Rattle.capi.specs.Calls.{NotWritten, Reads, Writes, Written};
ghost use Rattle.capi.specs.Deeds.{Comes, Goes};
ghost use Rattle.letter.specs.Refusals.{number, place};
ghost use Rattle.std.specs.Prelude.{MatchResult};

use crate::answers::{code_done, code_more, code_refused};
use crate::deeds::{comes, goes};
use decode::{Reply, read_letter};
use field::modulus::prime_65537;
use letter::refusals::Refusal;
use letter::slices::{letter_of, write_letter};

// Reads a letter beside a list: the numbers gone and then the numbers come are written to `out`, at most d together.
// Kept: lent slices as parameters of their own, since C hands them over so.
#[unsafe(no_mangle)]
pub extern "C" fn ridgeweek_read(note: &[u64], here: &[u64], out: &mut [u64], d: u64) -> u64
    ensures { Coded result (λ a. Reads note.now here.now out.old d a out.new) }
{
    match read_letter(note, here, out, d) {
        Reply::These(went, came) => code_done(went, came),
        Reply::More => code_more(),
        Reply::Refused(refusal) => code_refused(refusal),
    }
}

// Writes the letter of a list with m values to `out`: how many words that took.
fn write(list: &[u64], out: &mut [u64], m: u64) -> Result<usize, Refusal>
    ensures { MatchResult result (λ n. Written list.now out.old m 0 n out.new) (λ e. NotWritten list.now out.old m (number e) (place e) out.new) }
{
    let letter = letter_of(prime_65537(), list, m)?;
    write_letter(letter, out)
}

// Writes the letter of a list with m values to `out`.
#[unsafe(no_mangle)]
pub extern "C" fn ridgeweek_letter(list: &[u64], out: &mut [u64], m: u64) -> u64
    ensures { Coded result (λ a. Writes list.now out.old m a out.new) }
{
    match write(list, out, m) {
        Ok(words) => code_done(0, words as u64),
        Err(refusal) => code_refused(refusal),
    }
}

// A number comes to the list, and the letter is made anew by one product at each point.
// Kept: two calls of one shape, since C calls functions by name.
#[unsafe(no_mangle)]
pub extern "C" fn ridgeweek_comes(note: &mut [u64], list: &mut [u64], n: u64) -> u64
    ensures { Coded result (λ a. Comes note.old list.old n a note.new list.new) }
{
    match comes(note, list, n) {
        Ok(()) => 0,
        Err(refusal) => code_refused(refusal),
    }
}

// A number goes from the list, and the letter is made anew by one product at each point.
#[unsafe(no_mangle)]
pub extern "C" fn ridgeweek_goes(note: &mut [u64], list: &mut [u64], n: u64) -> u64
    ensures { Coded result (λ a. Goes note.old list.old n a note.new list.new) }
{
    match goes(note, list, n) {
        Ok(()) => 0,
        Err(refusal) => code_refused(refusal),
    }
}
