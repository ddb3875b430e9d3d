// A request in bytes, and the line that answers it: m, the allowance, the letter's count and its m values in three bytes each, and then the cards here in two bytes each. The low byte comes first.
ghost use Rattle.std.specs.Prelude.{◌≡◌, ◌+◌, ◌*◌, ◌<◌, length, slice_index, IfOk};
ghost use Rattle.read_cli.specs.Cards.{card_list};
ghost use Rattle.read_cli.specs.Told.{Within};

use decode::{Reply, read_letter};
use letter::row::MOST_VALUES;
use lines::{difference_line, refusal_line};
use std::alloc::{AllocError, Global};

// The number that a word says.
fn number(word: &[u8; 3]) -> u64
    ensures value { result ≡ slice_index word.now 0 + 256 * slice_index word.now 1 + 65536 * slice_index word.now 2 }
    ensures small { result < 16777216 }
{
    let [low, middle, high] = *word;
    u64::from(u32::from_le_bytes([low, middle, high, 0]))
}

// The words of the letter, as far as they are there: m, the count and the values. The allowance stands between m and the count.
fn note_in(heap: Global, words: &[[u8; 3]], m: u64) -> Result<Vec<u64>, AllocError>
    requires { m < 16777216 }
{
    let rest = words.iter().skip(2).take(m as usize + 1);
    words.iter().take(1).chain(rest).map(number).collect(heap)
}

// The cards as a list: their number, which counts one that is cut short, and those that are whole.
fn list_of(heap: Global, cards: &[u8]) -> Result<Vec<u64>, AllocError>
    ensures { IfOk result (λ v. v.items ≡ card_list cards.now) }
{
    let (whole, _) = cards.as_chunks::<2>();
    let mut list = Vec::new(heap);
    list.push(cards.len().div_ceil(2) as u64)?;
    for card in whole {
        let n = u64::from(u16::from_le_bytes(*card));
        list.push(n)?;
    }
    Ok(list)
}

// The line of what the reader replies, with the row that it was lent.
fn line_of(heap: Global, reply: Reply, out: &[u64]) -> Result<String, AllocError>
    requires { Within reply (length out.now) }
{
    match reply {
        Reply::These(went, came) => {
            let (gone, rest) = out.split_at(went as usize);
            let (come, _) = rest.split_at(came as usize);
            difference_line(heap, gone, come)
        }
        Reply::More => String::from_str(heap, "more"),
        Reply::Refused(refusal) => refusal_line(heap, refusal),
    }
}

// The line that answers a request. Where m or the allowance is cut short, it counts as 0.
pub fn answer(heap: Global, input: &[u8]) -> Result<String, AllocError> {
    let (words, _) = input.as_chunks::<3>();
    let m = words.first().map_or(0, number);
    let allowance = words.get(1).map_or(0, number);
    let note = note_in(heap, words, m)?;
    // The cards stand after three words and the m values.
    let cards = input.get(3 * (3 + m as usize)..).unwrap_or(&[]);
    let list = list_of(heap, cards)?;
    let mut out = [0; MOST_VALUES];
    let reply = read_letter(note.as_slice(), list.as_slice(), &mut out, allowance);
    line_of(heap, reply, &out)
}
