// Letters that were worked out by hand.
use crate::rows::{FILL, tells, tells_more};
use decode::read_letter;
use std::process::Abort;
use std::test::Fail;

fn told(
    rt: &impl Abort,
    note: &[u64],
    here: &[u64],
    d: u64,
    gone: &[u64],
    come: &[u64],
) -> Result<(), Fail> {
    let mut out = [FILL; 64];
    let reply = read_letter(note, here, &mut out, d);
    tells(rt, reply, &out, gone, come)
}

fn more(rt: &impl Abort, note: &[u64], here: &[u64], d: u64) -> Result<(), Fail> {
    let mut out = [FILL; 64];
    let reply = read_letter(note, here, &mut out, d);
    tells_more(rt, reply, &out)
}

#[test]
fn one_gone_and_one_come(rt: HostRuntime) -> Result<(), Fail> {
    let note = [3, 3, 65033, 64767, 64433];
    told(&rt, &note, &[3, 5, 9, 20], 3, &[9], &[3])?;
    told(&rt, &note, &[3, 5, 9, 20], 2, &[9], &[3])?;
    more(&rt, &note, &[3, 5, 9, 20], 1)?;
    more(&rt, &note, &[3, 5, 9, 20], 0)
}

#[test]
fn three_differences(rt: HostRuntime) -> Result<(), Fail> {
    let note = [3, 4, 26880, 39930, 56304];
    told(&rt, &note, &[3, 5, 9, 20], 3, &[5], &[3, 31])?;
    more(&rt, &note, &[3, 5, 9, 20], 2)
}

#[test]
fn few_differences(rt: HostRuntime) -> Result<(), Fail> {
    told(&rt, &[3, 2, 60, 77, 96], &[2, 5, 9], 0, &[], &[])?;
    told(&rt, &[2, 1, 65531, 65530], &[2, 5, 9], 2, &[9], &[])?;
    told(&rt, &[2, 1, 65531, 65530], &[0], 2, &[], &[5])?;
    told(&rt, &[0, 0], &[0], 0, &[], &[])?;
    more(&rt, &[0, 1], &[0], 0)
}

// Words after the letter and after the list are not read.
#[test]
fn words_after(rt: HostRuntime) -> Result<(), Fail> {
    told(&rt, &[1, 1, 65531, 4], &[2, 5, 9, 70000, 1], 1, &[9], &[])
}
