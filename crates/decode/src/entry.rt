// The reader: a letter read beside a list, in lent memory.
ghost use Rattle.std.specs.Prelude.{◌≡◌, ◌<◌, ◌≤◌, ◌++◌, IfOk, MatchResult, drop, length, slice_index};
ghost use Rattle.decode.specs.Beside.{Differs};
ghost use Rattle.decode.specs.Entry.{BesideSays, Due, DueBeside, ReadSays, Room, Sound, SoundBeside, Tells};
ghost use Rattle.decode.specs.declared.entry.Reply.TheVariants.{Refused};
ghost use Rattle.letter.specs.Desks.{Told, desk_of, desk_size};
ghost use Rattle.letter.specs.Slices.{letter_in, list_in};

use crate::beside::difference_beside;
use crate::evaluate::values_at;
use crate::numbers::Difference;
use crate::question::Question;
use field::modulus::{Modulus, prime_65537};
use letter::desks::Desk;
use letter::refusals::Refusal;
use letter::row::Row;
use letter::slices::{list_in, read_letter as letter_in};

// What a letter says beside a list.
// Kept: an enum of its own, since the reader's answer is numbers, more, or a refusal.
#[derive(Clone, Copy)]
pub enum Reply {
    // How many numbers are gone, and how many have come; they stand in the lent row, the gone ones first.
    These(u64, u64),
    // More differ than were asked for.
    More,
    Refused(Refusal),
}

// Writes numbers to the beginning of a row.
fn write_numbers(out: &mut [u64], numbers: &[u64])
    requires { length numbers.now ≤ length out.old }
    ensures { out.new ≡ numbers.now ++ drop (length numbers.now) out.old }
{
    out[..numbers.len()].copy_from_slice(numbers);
}

// Tells what was found: the numbers gone, and the numbers come in the part of the row that starts where the gone ones end.
fn tell(found: Option<Difference>, out: &mut [u64]) -> Reply
    requires { Room found (length out.old) }
    ensures { Tells found out.old result out.new }
{
    let Some(difference) = found else {
        return Reply::More;
    };
    let gone = difference.gone();
    let come = difference.come();
    write_numbers(out, gone);
    let rest = &mut out[gone.len()..];
    write_numbers(rest, come);
    Reply::These(gone.len() as u64, come.len() as u64)
}

// The reply, of what was found or of the first reason why nothing is read.
fn answer(found: Result<Option<Difference>, Refusal>, out: &mut [u64]) -> Reply
    requires { IfOk found (λ o. Room o (length out.old)) }
    ensures { MatchResult found (λ o. Tells o out.old result out.new) (λ e. (result ≡ Refused e) × (out.new ≡ out.old)) }
{
    match found {
        Ok(found) => tell(found, out),
        Err(refusal) => Reply::Refused(refusal),
    }
}

// Whether a row has room for d numbers.
fn room_for(d: u64, out: &[u64]) -> Result<(), Refusal>
    ensures { MatchResult result (λ _. d ≤ length out.now) (λ e. Told 4 (length out.now) e × (length out.now < d)) }
{
    let length = out.len() as u64;
    if length < d {
        return Err(Refusal::Short(length));
    }
    Ok(())
}

// What differs between a letter and a list, or the first reason why they are not read.
fn sought<const P: u64>(
    modulus: Modulus<P>,
    note: &[u64],
    here: &[u64],
    out: &[u64],
    d: u64,
) -> Result<Option<Difference>, Refusal>
    ensures { MatchResult result (λ o. Sound P note.now here.now out.now d × Differs P (slice_index note.now 0) d (letter_in note.now) (list_in here.now) o) (Due P note.now here.now out.now d) }
{
    let letter = letter_in(modulus, note)?;
    let m = letter.values().len() as u64;
    let Some(nodes) = Row::points_for(modulus, m) else {
        return Err(Refusal::Letter(0));
    };
    let list = list_in(here, P - m)?;
    if d > m {
        return Err(Refusal::Allowance(d));
    }
    room_for(d, out)?;
    let question = Question {
        modulus,
        nodes,
        letter,
        own: values_at(modulus, nodes, list),
        here: list,
        d,
    };
    Ok(question.difference())
}

// Reads a letter beside a list, modulo any prime.
pub fn read_modulo<const P: u64>(
    modulus: Modulus<P>,
    note: &[u64],
    here: &[u64],
    out: &mut [u64],
    d: u64,
) -> Reply
    ensures { ReadSays P note.now here.now out.old d result out.new }
{
    let found = sought(modulus, note, here, out, d);
    answer(found, out)
}

// Reads a letter beside a list, modulo 65,537.
pub fn read_letter(note: &[u64], here: &[u64], out: &mut [u64], d: u64) -> Reply
    ensures { ReadSays 65537 note.now here.now out.old d result out.new }
{
    read_modulo(prime_65537(), note, here, out, d)
}

// What differs between a letter and a desk's own list, or the first reason why they are not read.
fn sought_beside<const P: u64>(
    desk: &Desk<P>,
    note: &[u64],
    out: &[u64],
    d: u64,
) -> Result<Option<Difference>, Refusal>
    ensures { MatchResult result (λ o. SoundBeside P note.now (desk_size desk.now) out.now d × Differs P (slice_index note.now 0) d (letter_in note.now) (desk_of desk.now).list o) (DueBeside P note.now (desk_size desk.now) out.now d) }
{
    let letter = letter_in(desk.modulus(), note)?;
    let found = difference_beside(desk, letter, d)?;
    room_for(d, out)?;
    Ok(found)
}

// Reads a letter beside a desk's own list, with the values that the desk keeps and without going over the list to make them.
pub fn read_beside<const P: u64>(desk: &Desk<P>, note: &[u64], out: &mut [u64], d: u64) -> Reply
    ensures { BesideSays P note.now (desk_of desk.now).list (desk_size desk.now) out.old d result out.new }
{
    let found = sought_beside(desk, note, out, d);
    answer(found, out)
}
