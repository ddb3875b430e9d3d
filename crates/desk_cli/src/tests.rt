// Inputs, and what is printed for them.
use crate::deeds::answer;
use std::process::Abort;
use std::test::Fail;

fn prints(rt: &(impl Abort + AllocGlobal), input: &[u8], output: &str) -> Result<(), Fail> {
    assert_eq!(rt; answer(rt.alloc(), input)?.as_str(), output);
    Ok(())
}

#[test]
fn letters(rt: HostRuntime) -> Result<(), Fail> {
    prints(&rt, &[3], "0: 1 1 1\n")?;
    prints(&rt, &[3, 0, 5, 0], "1: 65531 65530 65529\n")?;
    prints(&rt, &[3, 0, 5, 0, 0, 9, 0], "2: 60 77 96\n")?;
    prints(&rt, &[0, 0, 5, 0, 0, 9, 0, 0, 0, 255], "3:\n")
}

#[test]
fn refusals(rt: HostRuntime) -> Result<(), Fail> {
    prints(&rt, &[], "refused 1 at 0\n")?;
    prints(&rt, &[65, 0, 5, 0], "refused 1 at 0\n")?;
    prints(
        &rt,
        &[1, 1, 5, 0, 0, 255, 255, 0, 5, 0],
        "refused 6 at 5\n2: 65531\n",
    )
}

#[test]
fn malformed(rt: HostRuntime) -> Result<(), Fail> {
    prints(&rt, &[3, 0], "malformed at 1\n")?;
    prints(&rt, &[3, 2, 5, 0], "malformed at 1\n")?;
    prints(
        &rt,
        &[3, 0, 5, 0, 0, 5, 0, 1, 5],
        "refused 5 at 5\nmalformed at 7\n",
    )
}
