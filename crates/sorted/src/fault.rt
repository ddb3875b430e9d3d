// The check of numbers from outside: do they rise, and stay below a bound?
ghost use Rattle.std.specs.Option.{MatchOption};
ghost use Rattle.sorted.specs.Faults.{FirstFault, Faultless};

// The first place whose number is not above the one before it or not below the bound.
pub fn first_fault(list: &[u64], bound: u64) -> Option<usize>
    ensures { MatchOption result (Faultless bound list.now) (FirstFault bound list.now) }
{
    // The least number that may stand at the next place.
    let mut least = 0;
    for (i, n) in list.iter().enumerate() {
        if *n < least || *n >= bound {
            return Some(i);
        }
        least = *n + 1;
    }
    None
}
