// What a letter of m values can and cannot tell: the bounds, each with the theorems that it stands for.
#![tactic(auto)]

ghost use Rattle.std.specs.Prelude.{◌≡◌, ◌+◌, ◌-◌, ◌*◌, ◌%◌, ◌^◌, ◌<◌, ◌≤◌, MatchOption};
ghost use Rattle.explain.specs.Promise.{OneExplanation, OneExplanationParity, Parity, TrueDifferenceExplains, SameLetter, SameLetterParity, BroughtTogether, BroughtTogetherParity, SomeLettersAlike, powers};
ghost use Rattle.explain.specs.AnyPoints.{OneExplanationAt, TrueDifferenceAt, SameValuesAt, BroughtTogetherAt};
ghost use Rattle.explain.specs.Sharp.{BoundReached, ListsAlike, LettersAmiss};

// Whether what differs is even (0) or odd (1), from the letter's count and the count here.
pub fn parity(many: u64, here: u64) -> u64
    ensures exact { result ≡ (many + here) % 2 }
    ensures of_explanations { Parity }
    ensures true_difference { TrueDifferenceExplains }
    ensures true_difference_at { TrueDifferenceAt }
{
    (many % 2 + here % 2) % 2
}

// How many numbers two explanations of a letter may have together and still be one and the same.
pub fn unique_up_to(m: u32) -> u64
    ensures exact { result ≡ 2 * m + 1 }
    ensures plain { OneExplanation }
    ensures parity { OneExplanationParity }
    ensures any_points { OneExplanationAt }
{
    2 * (m as u64) + 1
}

// In how many numbers at least two different lists with the same letter differ.
pub fn alike_from(m: u32) -> u64
    ensures exact { result ≡ 2 * m + 2 }
    ensures plain { SameLetter }
    ensures parity { SameLetterParity }
    ensures any_points { SameValuesAt }
    ensures reached { BoundReached }
    ensures examples { ListsAlike }
{
    unique_up_to(m) + 1
}

// How many differing numbers are still told as too many, where a letter is read with at most d; none where d is above m.
pub fn told_up_to(m: u32, d: u32) -> Option<u64>
    ensures exact { MatchOption result (m < d) (λ n. (d ≤ m) × (n ≡ (2 * m + 1) - d)) }
    ensures plain { BroughtTogether }
    ensures parity { BroughtTogetherParity }
    ensures any_points { BroughtTogetherAt }
    ensures examples { LettersAmiss }
{
    if d > m {
        return None;
    }
    Some(unique_up_to(m) - d as u64)
}

// How many different rows of m values below p there are; none where they do not fit 64 bits.
pub fn rows(p: u64, m: u32) -> Option<u64>
    ensures exact { MatchOption result (2 ^ 64 ≤ powers p m) (λ n. n ≡ powers p m) }
    ensures alike { SomeLettersAlike }
{
    p.checked_pow(m)
}
