// Every refusal at its places; the lent row is as it was.
use crate::rows::{FILL, unchanged};
use decode::{Reply, read_letter};
use std::process::Abort;
use std::test::Fail;

fn refuses(
    rt: &impl Abort,
    note: &[u64],
    here: &[u64],
    out: &mut [u64],
    d: u64,
    number: u64,
    place: u64,
) -> Result<(), Fail> {
    let Reply::Refused(refusal) = read_letter(note, here, out, d) else {
        return Err(Fail::new("not refused"));
    };
    assert_eq!(rt; refusal.number(), number);
    assert_eq!(rt; refusal.place(), place);
    unchanged(rt, out)
}

// The place at which a letter is at fault. The list, the allowance and the row are at fault too.
fn letter_fault(rt: &impl Abort, note: &[u64], place: u64) -> Result<(), Fail> {
    refuses(rt, note, &[], &mut [], 70, 1, place)?;
    refuses(rt, note, &[2, 5, 5], &mut [FILL; 64], 1, 1, place)
}

// The place at which a list beside a letter of two values is at fault. The allowance and the row are at fault too.
fn list_fault(rt: &impl Abort, here: &[u64], place: u64) -> Result<(), Fail> {
    let note = [2, 1, 65531, 65530];
    refuses(rt, &note, here, &mut [], 70, 2, place)?;
    refuses(rt, &note, here, &mut [FILL; 64], 1, 2, place)
}

#[test]
fn letters(rt: HostRuntime) -> Result<(), Fail> {
    letter_fault(&rt, &[], 0)?;
    letter_fault(&rt, &[65], 0)?;
    letter_fault(&rt, &[65, 70000], 0)?;
    letter_fault(&rt, &[2], 1)?;
    letter_fault(&rt, &[2, 65538], 1)?;
    letter_fault(&rt, &[2, 1], 2)?;
    letter_fault(&rt, &[2, 1, 65537, 65537], 2)?;
    letter_fault(&rt, &[2, 1, 65531], 3)?;
    letter_fault(&rt, &[2, 1, 65531, 65537], 3)
}

#[test]
fn lists(rt: HostRuntime) -> Result<(), Fail> {
    list_fault(&rt, &[], 0)?;
    list_fault(&rt, &[1], 1)?;
    list_fault(&rt, &[1, 65535], 1)?;
    list_fault(&rt, &[2, 5], 2)?;
    list_fault(&rt, &[2, 5, 5], 2)?;
    list_fault(&rt, &[2, 9, 5], 2)?;
    list_fault(&rt, &[3, 9, 5], 2)?;
    list_fault(&rt, &[3, 5, 9], 3)?;
    list_fault(&rt, &[2, 5, 65535], 2)
}

#[test]
fn allowances(rt: HostRuntime) -> Result<(), Fail> {
    let note = [2, 1, 65531, 65530];
    refuses(&rt, &note, &[1, 5], &mut [FILL; 64], 3, 3, 3)?;
    refuses(&rt, &note, &[1, 5], &mut [], 3, 3, 3)?;
    refuses(
        &rt,
        &note,
        &[1, 65534],
        &mut [FILL; 64],
        u64::MAX,
        3,
        u64::MAX,
    )?;
    refuses(&rt, &[0, 1], &[1, 5], &mut [FILL; 64], 1, 3, 1)
}

#[test]
fn short_rows(rt: HostRuntime) -> Result<(), Fail> {
    let note = [2, 1, 65531, 65530];
    refuses(&rt, &note, &[1, 5], &mut [], 1, 4, 0)?;
    refuses(&rt, &note, &[1, 5], &mut [], 2, 4, 0)?;
    refuses(&rt, &note, &[1, 5], &mut [FILL], 2, 4, 1)
}
