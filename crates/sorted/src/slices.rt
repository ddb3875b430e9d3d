// Numbers in a lent slice: a search among them, and numbers moved by one place to put one in or take one out.
ghost use Rattle.std.specs.Prelude.{◌≡◌, ◌++◌, length, take, drop, MatchResult};
ghost use Rattle.sorted.specs.Edits.{Hit, Miss};
ghost use Rattle.std.specs.List.{insert, remove};

// The place of n, or, if the numbers rise, the place where n would stand. Whether they rise is not looked at.
pub fn search(list: &[u64], n: u64) -> Result<usize, usize>
    ensures { MatchResult result (Hit n list.now) (Miss n list.now) }
{
    list.binary_search(&n)
}

// Puts n at a place. What stood there and behind it moves up by one, and the last number falls out.
pub fn insert_at(row: &mut [u64], place: usize, n: u64)
    ensures { row.new ≡ take (length row.old) (insert row.old place n) }
{
    if place >= row.len() {
        return;
    }
    row.copy_within(place..row.len() - 1, place + 1);
    row[place] = n;
}

// Takes out the number at a place. What stood behind it moves down by one, and the last place stays as it was.
pub fn remove_at(row: &mut [u64], place: usize)
    ensures { row.new ≡ remove row.old place ++ drop (length (remove row.old place)) row.old }
{
    if place >= row.len() {
        return;
    }
    row.copy_within(place + 1.., place);
}
