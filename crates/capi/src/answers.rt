// The number that stands for an answer.
// Kept: the C interface answers by one number, so what an answer is and why it is refused are numbers there.
ghost use Rattle.std.specs.Prelude.{◌≡◌, ◌<◌};
ghost use Rattle.capi.specs.Answers.{code, done, more, told};

use letter::refusals::Refusal;

// What places of 2^32 - 1 and more are told as; in the high half of an answer, "more".
const LAST: u64 = 4294967295;

// Two counts in the low half.
pub(crate) fn code_done(went: u64, came: u64) -> u64
    requires { (went < 65536) × (came < 65536) }
    ensures { result ≡ code (done went came) }
{
    went * 65536 + came
}

// The refusal's number in the high half, and its place in the low one.
pub(crate) fn code_refused(refusal: Refusal) -> u64
    ensures { result ≡ code (told refusal) }
{
    refusal.number() * 4294967296 + refusal.place().min(LAST)
}

pub(crate) fn code_more() -> u64
    ensures { result ≡ code more }
{
    LAST * 4294967296
}
