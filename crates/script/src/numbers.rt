// Numbers in decimal.
ghost use Rattle.std.specs.Prelude.{decimal};
ghost use Rattle.script.specs.Reads.{Fits, Reads};

// The number that a word writes. There is none where a zero stands before another digit, or at 2^64 and above.
pub fn number(word: &[u8]) -> Option<u64>
    ensures { Reads Fits decimal word.now result }
{
    if *word.first()? == b'0' && word.len() > 1 {
        return None;
    }
    word.iter().try_fold(0u64, |n, byte| {
        let digit = char::from(*byte).to_digit(10)?;
        n.checked_mul(10)?.checked_add(u64::from(digit))
    })
}
