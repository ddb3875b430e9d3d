// Lists of the numbers below six, one for each of 64 masks, held against plain operations on the masks.
use crate::{FromSliceError, SortedList, first_fault};
use std::alloc::AllocError;
use std::process::Abort;
use std::test::*;

// The numbers whose bits are set, in order.
fn numbers(rt: &(impl Abort + AllocGlobal), mask: u8) -> Result<Vec<u64>, AllocError> {
    (0..6).filter(|n| mask >> *n & 1 == 1).collect(rt.alloc())
}

fn list(rt: &(impl Abort + AllocGlobal), mask: u8) -> Result<SortedList, Fail> {
    let set = numbers(rt, mask)?;
    Ok(SortedList::from_slice(rt.alloc(), set.as_slice(), 6)?)
}

fn holds(rt: &(impl Abort + AllocGlobal), list: &SortedList, mask: u8) -> Result<(), Fail> {
    let set = numbers(rt, mask)?;
    assert!(rt; list.as_slice() == set.as_slice());
    assert_eq!(rt; list.len(), set.len());
    Ok(())
}

fn pair(rt: &(impl Abort + AllocGlobal), a: u8, b: u8) -> Result<(), Fail> {
    let left = list(rt, a)?;
    let right = list(rt, b)?;
    assert_eq!(rt; left.differ(&right), numbers(rt, a ^ b)?.len());
    holds(rt, &left.difference(&right, rt.alloc())?, a & !b)?;
    holds(rt, &left.union(&right, rt.alloc())?, a | b)
}

#[test]
fn all_pairs(rt: HostRuntime) -> Result<(), Fail> {
    for a in 0..64 {
        for b in 0..64 {
            pair(&rt, a, b)?;
        }
    }
    Ok(())
}

fn edits(rt: &(impl Abort + AllocGlobal), mask: u8, n: u8) -> Result<(), Fail> {
    assert!(rt; n < 6);
    let bit = 1u8 << n;
    let mut edited = list(rt, mask)?;
    let there = mask & bit != 0;
    assert_eq!(rt; edited.contains(u64::from(n)), there);
    assert_eq!(rt; edited.insert(u64::from(n))?, !there);
    holds(rt, &edited, mask | bit)?;
    assert!(rt; edited.remove(u64::from(n)));
    holds(rt, &edited, mask & !bit)?;
    assert!(rt; !edited.remove(u64::from(n)));
    Ok(())
}

#[test]
fn all_edits(rt: HostRuntime) -> Result<(), Fail> {
    let mut built = SortedList::new(rt.alloc());
    assert!(rt; built.insert(5)? && built.insert(0)? && built.insert(3)?);
    holds(&rt, &built, 0b101001)?;
    for mask in 0..64 {
        for n in 0..6 {
            edits(&rt, mask, n)?;
        }
    }
    Ok(())
}

#[test]
fn faults(rt: HostRuntime) -> Result<(), Fail> {
    assert_eq!(rt; first_fault(&[], 0), None);
    assert_eq!(rt; first_fault(&[0, 1, 7], 8), None);
    assert_eq!(rt; first_fault(&[0, 1, 7], 7), Some(2));
    assert_eq!(rt; first_fault(&[3, 3], 9), Some(1));
    assert_eq!(rt; first_fault(&[9, 8, 20], 10), Some(1));
    assert_eq!(rt; first_fault(&[0, 4, 5, 2], 5), Some(2));
    match SortedList::from_slice(rt.alloc(), &[2, 1], 5) {
        Ok(_) => Err(Fail::new("numbers that fall were taken")),
        Err(e) => {
            assert!(rt; e == FromSliceError::Fault(1));
            Ok(())
        },
    }
}
