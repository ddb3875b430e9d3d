// How large the two polynomials are that a letter is read with.
ghost use Rattle.std.specs.Prelude.{◌≡◌, ◌<◌, ◌≤◌, MatchOption};
ghost use Rattle.decode.specs.Sizes.{far, gone_size, come_size};

// The degree of the polynomial of the numbers gone, and of that of the numbers come.
#[derive(Clone, Copy)]
pub(crate) struct Sizes {
    pub(crate) gone: usize,
    pub(crate) come: usize,
}

// The largest sizes that fit the counts with at most d numbers together; none where the counts are further apart.
pub(crate) fn largest(many: u64, count: u64, d: u64) -> Option<Sizes>
    ensures { MatchOption result (d < far many count) (λ s. (far many count ≤ d) × (s.gone ≡ gone_size many count d) × (s.come ≡ come_size many count d)) }
{
    let more = many.saturating_sub(count);
    let fewer = count.saturating_sub(many);
    if more > d || fewer > d {
        return None;
    }
    let common = (d - (more + fewer)) / 2;
    Some(Sizes {
        gone: (common + fewer) as usize,
        come: (common + more) as usize,
    })
}
