// A letter of sixty-four values beside more than nine thousand cards.
use crate::rows::{FILL, tells, tells_more};
use decode::{read_beside, read_letter};
use field::modulus::{PRIME, prime_65537};
use field::tally::Tally;
use letter::desks::Desk;
use std::alloc::{AllocError, Global};
use std::process::Abort;
use std::test::Fail;

// Two lists that differ, as rows of numbers.
#[derive(Drop)]
struct Lists {
    here: Vec<u64>,
    there: Vec<u64>,
    gone: Vec<u64>,
    come: Vec<u64>,
}

impl Lists {
    fn new(heap: Global) -> Lists {
        Lists {
            here: Vec::new(heap),
            there: Vec::new(heap),
            gone: Vec::new(heap),
            come: Vec::new(heap),
        }
    }

    fn keep(&mut self, n: u64) -> Result<(), AllocError> {
        self.here.push(n)?;
        self.there.push(n)?;
        Ok(())
    }

    fn lose(&mut self, n: u64) -> Result<(), AllocError> {
        self.here.push(n)?;
        self.gone.push(n)?;
        Ok(())
    }

    fn gain(&mut self, n: u64) -> Result<(), AllocError> {
        self.there.push(n)?;
        self.come.push(n)?;
        Ok(())
    }
}

// The multiples of 7, and so many differences spread over them: in turn one that is gone and one that has come.
fn spread(heap: Global, differences: u64) -> Result<Lists, AllocError> {
    let mut lists = Lists::new(heap);
    for k in 0..9353u64 {
        let n = 7 * k;
        let differs = k % 100 == 50 && k / 100 < differences;
        if !differs {
            lists.keep(n)?;
        } else if k / 100 % 2 == 0 {
            lists.lose(n)?;
        } else {
            lists.keep(n)?;
            lists.gain(n + 1)?;
        }
    }
    Ok(lists)
}

// The numbers below 60,000, and 30 of them gone and 33 come: as many as a list may have, and more there.
fn full(heap: Global) -> Result<Lists, AllocError> {
    let mut lists = Lists::new(heap);
    for n in 0..60000u64 {
        if n % 2000 == 999 {
            lists.lose(n)?;
        } else {
            lists.keep(n)?;
        }
    }
    for k in 0..33u64 {
        lists.gain(60000 + 100 * k)?;
    }
    Ok(lists)
}

// A desk for sixty-four values with these numbers on its list.
fn desk_of(heap: Global, numbers: &[u64]) -> Result<Desk<PRIME>, Fail> {
    let mut desk = Desk::open(prime_65537(), 64, heap)?;
    let mut tally = Tally::new();
    for n in numbers {
        desk.comes(*n, &mut tally)?;
    }
    Ok(desk)
}

// A letter of sixty-four values, by a plain loop over the numbers for each.
fn letter_of(heap: Global, numbers: &[u64]) -> Result<Vec<u64>, AllocError> {
    let mut note = Vec::new(heap);
    note.push(64)?;
    note.push(numbers.len() as u64)?;
    for i in 0..64u64 {
        let z = 65536 - i;
        let mut product = 1u64;
        for n in numbers {
            product = product.wrapping_mul(z.wrapping_sub(*n)) % 65537;
        }
        note.push(product)?;
    }
    Ok(note)
}

fn list_of(heap: Global, numbers: &[u64]) -> Result<Vec<u64>, AllocError> {
    let mut list = Vec::new(heap);
    list.push(numbers.len() as u64)?;
    list.extend_from_slice(numbers)?;
    Ok(list)
}

fn differ(rt: &impl Abort, heap: Global, differences: u64) -> Result<(), Fail> {
    let lists = spread(heap, differences)?;
    let note = letter_of(heap, lists.there.as_slice())?;
    let here = list_of(heap, lists.here.as_slice())?;
    for d in 63..65 {
        let mut out = [FILL; 64];
        let reply = read_letter(note.as_slice(), here.as_slice(), &mut out, d);
        if differences <= d {
            tells(
                rt,
                reply,
                &out,
                lists.gone.as_slice(),
                lists.come.as_slice(),
            )?;
        } else {
            tells_more(rt, reply, &out)?;
        }
    }
    Ok(())
}

// The same beside a desk, which has the list here.
fn differ_beside(rt: &impl Abort, heap: Global, differences: u64) -> Result<(), Fail> {
    let lists = spread(heap, differences)?;
    let note = letter_of(heap, lists.there.as_slice())?;
    let desk = desk_of(heap, lists.here.as_slice())?;
    let mut out = [FILL; 64];
    let reply = read_beside(&desk, note.as_slice(), &mut out, 63);
    if differences <= 63 {
        tells(
            rt,
            reply,
            &out,
            lists.gone.as_slice(),
            lists.come.as_slice(),
        )
    } else {
        tells_more(rt, reply, &out)
    }
}

#[test]
fn beside_a_desk(rt: HostRuntime) -> Result<(), Fail> {
    differ_beside(&rt, rt.alloc(), 0)?;
    differ_beside(&rt, rt.alloc(), 63)?;
    differ_beside(&rt, rt.alloc(), 64)
}

#[test]
fn full_lists(rt: HostRuntime) -> Result<(), Fail> {
    let lists = full(rt.alloc())?;
    let note = letter_of(rt.alloc(), lists.there.as_slice())?;
    let here = list_of(rt.alloc(), lists.here.as_slice())?;
    let mut out = [FILL; 64];
    let reply = read_letter(note.as_slice(), here.as_slice(), &mut out, 63);
    tells(
        &rt,
        reply,
        &out,
        lists.gone.as_slice(),
        lists.come.as_slice(),
    )?;
    let mut out = [FILL; 64];
    let reply = read_letter(note.as_slice(), here.as_slice(), &mut out, 62);
    tells_more(&rt, reply, &out)
}

#[test]
fn none_or_one(rt: HostRuntime) -> Result<(), Fail> {
    differ(&rt, rt.alloc(), 0)?;
    differ(&rt, rt.alloc(), 1)
}

#[test]
fn as_many_as_can_be_told(rt: HostRuntime) -> Result<(), Fail> {
    differ(&rt, rt.alloc(), 63)?;
    differ(&rt, rt.alloc(), 64)
}

#[test]
fn one_too_many(rt: HostRuntime) -> Result<(), Fail> {
    differ(&rt, rt.alloc(), 65)
}
