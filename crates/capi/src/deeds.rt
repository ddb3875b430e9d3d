// Deeds on a lent list and its letter: the number is put in or taken out in place, and the letter is made anew by one
// product at each point. The list is searched and never gone over, so whether it rises is not looked at.
ghost use Rattle.capi.specs.Deeds.{Came, Counts, DueComes, DueGoes, Miscounts, NotCame, NotLent, NotWent, Went};
ghost use Rattle.capi.specs.Steps.{Coming, Going, Held};
ghost use Rattle.letter.specs.Refusals.{number, place};
ghost use Rattle.std.specs.Prelude.{◌≡◌, MatchResult};

use field::modulus::{PRIME, prime_65537};
use field::tally::Tally;
use letter::letters::Letter;
use letter::refusals::Refusal;
use letter::slices::{read_letter, write_letter};
use sorted::slices::{insert_at, remove_at, search};

// That a list has so many numbers, or the place at which it fails to: 0 where it says nothing or another count.
// Kept: it gives no slice of the numbers, since a step needs the count all the same, and `lent` would give a pair with a lifetime.
fn counted(list: &[u64], count: u64) -> Result<(), Refusal>
    ensures { MatchResult result (λ _. Counts list.now count) (λ e. (number e ≡ 2) × Miscounts list.now count (place e)) }
{
    let [many, rest @ ..] = list else {
        return Err(Refusal::List(0));
    };
    if *many != count {
        return Err(Refusal::List(0));
    }
    if (rest.len() as u64) < count {
        return Err(Refusal::List(list.len() as u64));
    }
    Ok(())
}

// The letter that is lent, if it is sound and the list has as many numbers as it says.
fn lent(note: &[u64], list: &[u64]) -> Result<Letter<PRIME>, Refusal>
    ensures { MatchResult result (Held note.now list.now) (λ e. NotLent note.now list.now (number e) (place e)) }
{
    let letter = read_letter(prime_65537(), note)?;
    counted(list, letter.count())?;
    Ok(letter)
}

// A deed that can be done: the letter afterwards, how many numbers the list has, and the place of the number there.
#[derive(Clone, Copy)]
struct Step {
    next: Letter<PRIME>,
    count: usize,
    place: usize,
}

// Whether n can come.
fn coming(note: &[u64], list: &[u64], n: u64) -> Result<Step, Refusal>
    ensures { MatchResult result (Coming note.now list.now n) (λ e. DueComes note.now list.now n (number e) (place e)) }
{
    let letter = lent(note, list)?;
    let count = letter.count() as usize;
    let Err(place) = search(&list[1..1 + count], n) else {
        return Err(Refusal::Comes(n));
    };
    let mut tally = Tally::new();
    let next = letter.comes(prime_65537(), n, &mut tally)?;
    if list.len() < 2 + count {
        return Err(Refusal::Short(list.len() as u64));
    }
    Ok(Step { next, count, place })
}

// A number comes.
pub(crate) fn comes(note: &mut [u64], list: &mut [u64], n: u64) -> Result<(), Refusal>
    ensures { MatchResult result (λ _. Came note.old list.old n note.new list.new) (λ e. NotCame note.old list.old n (number e) (place e) note.new list.new) }
{
    let step = coming(note, list, n)?;
    insert_at(&mut list[1..2 + step.count], step.place, n);
    list[0] = step.next.count();
    write_letter(step.next, note).unwrap();
    Ok(())
}

// Whether n can go.
fn going(note: &[u64], list: &[u64], n: u64) -> Result<Step, Refusal>
    ensures { MatchResult result (Going note.now list.now n) (λ e. DueGoes note.now list.now n (number e) (place e)) }
{
    let letter = lent(note, list)?;
    let count = letter.count() as usize;
    let Ok(place) = search(&list[1..1 + count], n) else {
        return Err(Refusal::Goes(n));
    };
    let mut tally = Tally::new();
    let next = letter.goes(prime_65537(), n, &mut tally)?;
    Ok(Step { next, count, place })
}

// A number goes.
// Kept: ends as `comes` does; a call that lends both slices would be no shorter than these lines.
pub(crate) fn goes(note: &mut [u64], list: &mut [u64], n: u64) -> Result<(), Refusal>
    ensures { MatchResult result (λ _. Went note.old list.old n note.new list.new) (λ e. NotWent note.old list.old n (number e) (place e) note.new list.new) }
{
    let step = going(note, list, n)?;
    remove_at(&mut list[1..1 + step.count], step.place);
    list[0] = step.next.count();
    write_letter(step.next, note).unwrap();
    Ok(())
}
