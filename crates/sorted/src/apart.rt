// How many numbers differ between two rising lists.
ghost use Rattle.std.specs.Prelude.{◌≡◌, true};
ghost use Rattle.sorted.specs.Lists.{differ, rising};

use std::cmp::Ordering;

// How many numbers are in one of a and b and not in the other.
// Kept: a loop over two places, since a chain over `Merge` takes more than twice the time on lists that take turns.
pub(crate) fn count_differences(a: &[u64], b: &[u64]) -> usize
    requires left { rising a.now ≡ true }
    requires right { rising b.now ≡ true }
    ensures { result ≡ differ a.now b.now }
{
    let mut count = 0;
    let mut i = 0;
    let mut j = 0;
    while i < a.len() && j < b.len() {
        let x = a[i];
        let y = b[j];
        match x.cmp(&y) {
            Ordering::Less => {
                count += 1;
                i += 1;
            }
            Ordering::Equal => {
                i += 1;
                j += 1;
            }
            Ordering::Greater => {
                count += 1;
                j += 1;
            }
        }
    }
    count + (a.len() - i) + (b.len() - j)
}
