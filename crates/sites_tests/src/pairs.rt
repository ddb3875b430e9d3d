// Two desks brought together by one letter.
use decode::Difference;
use field::modulus::{PRIME, prime_65537};
use field::tally::Tally;
use letter::desks::Desk;
use letter::refusals::Refusal;
use sites::together::bring_together;
use std::alloc::Global;
use std::process::Abort;
use std::test::Fail;

fn desk_of(heap: Global, m: u64, numbers: &[u64]) -> Result<Desk<PRIME>, Fail> {
    let mut desk = Desk::open(prime_65537(), m, heap)?;
    let mut tally = Tally::new();
    for n in numbers {
        desk.comes(*n, &mut tally)?;
    }
    Ok(desk)
}

// That these numbers went and came, and that the list here is then the one there.
fn brings(
    rt: &impl Abort,
    heap: Global,
    here: &[u64],
    there: &[u64],
    gone: &[u64],
    come: &[u64],
) -> Result<(), Fail> {
    let mut here = desk_of(heap, 3, here)?;
    let other = desk_of(heap, 3, there)?;
    let Some(difference) = bring_together(&mut here, &other, 3, 3, heap)? else {
        return Err(Fail::new("nothing is told"));
    };
    assert_eq!(rt; difference.gone(), gone);
    assert_eq!(rt; difference.come(), come);
    assert_eq!(rt; here.list(), there);
    Ok(())
}

#[test]
fn worked(rt: HostRuntime) -> Result<(), Fail> {
    let heap = rt.alloc();
    brings(&rt, heap, &[5, 9, 20], &[3, 5, 20], &[9], &[3])?;
    brings(&rt, heap, &[5, 9, 20], &[3, 9, 20, 31], &[5], &[3, 31])?;
    brings(&rt, heap, &[5, 9], &[5, 9], &[], &[])
}

#[test]
fn more_changes_nothing(rt: HostRuntime) -> Result<(), Fail> {
    let heap = rt.alloc();
    let mut here = desk_of(heap, 3, &[5, 9, 20])?;
    let there = desk_of(heap, 3, &[3, 9, 20, 31])?;
    let None = bring_together(&mut here, &there, 3, 2, heap)? else {
        return Err(Fail::new("not more"));
    };
    assert_eq!(rt; here.list(), [5, 9, 20].as_slice());
    Ok(())
}

fn refused(
    rt: &impl Abort,
    outcome: Result<Option<Difference>, Refusal>,
    refusal: Refusal,
) -> Result<(), Fail> {
    match outcome {
        Err(told) => {
            assert_eq!(rt; told, refusal);
            Ok(())
        },
        Ok(Some(_)) => Err(Fail::new("brought")),
        Ok(None) => Err(Fail::new("more")),
    }
}

#[test]
fn refusals(rt: HostRuntime) -> Result<(), Fail> {
    let heap = rt.alloc();
    let mut here = desk_of(heap, 3, &[5, 9, 20])?;
    let there = desk_of(heap, 2, &[65534])?;
    refused(
        &rt,
        bring_together(&mut here, &there, 3, 1, heap),
        Refusal::Letter(0),
    )?;
    refused(
        &rt,
        bring_together(&mut here, &there, 2, 3, heap),
        Refusal::Allowance(3),
    )?;
    let mut empty = desk_of(heap, 3, &[])?;
    refused(
        &rt,
        bring_together(&mut empty, &there, 2, 2, heap),
        Refusal::Comes(65534),
    )?;
    let none: [u64; 0] = [];
    assert_eq!(rt; empty.list(), none.as_slice());
    assert_eq!(rt; here.list(), [5, 9, 20].as_slice());
    Ok(())
}
