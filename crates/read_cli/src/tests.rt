// Requests, and the lines that answer them.
use crate::request::answer;
use std::process::Abort;
use std::test::Fail;

fn answers(rt: &(impl Abort + AllocGlobal), input: &[u8], line: &str) -> Result<(), Fail> {
    assert_eq!(rt; answer(rt.alloc(), input)?.as_str(), line);
    Ok(())
}

#[test]
fn cut_letters(rt: HostRuntime) -> Result<(), Fail> {
    answers(&rt, &[], "refused 1 at 0")?;
    answers(&rt, &[3, 0], "refused 1 at 0")?;
    answers(&rt, &[65, 0, 0], "refused 1 at 0")?;
    answers(&rt, &[3, 0, 0], "refused 1 at 1")?;
    answers(&rt, &[3, 0, 0, 1, 0], "refused 1 at 1")?;
    answers(&rt, &[3, 0, 0, 1, 0, 0], "refused 1 at 1")?;
    answers(&rt, &[1, 0, 0, 1, 0, 0, 0, 0, 0], "refused 1 at 2")?;
    answers(&rt, &[1, 0, 0, 1, 0, 0, 0, 0, 0, 1, 0], "refused 1 at 2")
}

#[test]
fn cut_cards(rt: HostRuntime) -> Result<(), Fail> {
    answers(&rt, &[0, 0, 0, 0, 0, 0, 0, 0, 0, 5], "refused 2 at 1")?;
    answers(&rt, &[0, 0, 0, 0, 0, 0, 0, 0, 0, 5, 0, 9], "refused 2 at 2")?;
    answers(
        &rt,
        &[0, 0, 0, 0, 0, 0, 0, 0, 0, 5, 0, 5, 0],
        "refused 2 at 2",
    )
}

#[test]
fn differences(rt: HostRuntime) -> Result<(), Fail> {
    answers(&rt, &[0, 0, 0, 0, 0, 0, 2, 0, 0, 5, 0, 9, 0], "gone come")?;
    answers(&rt, &[0, 0, 0, 0, 0, 0, 1, 0, 0, 5, 0, 9, 0], "more")?;
    answers(
        &rt,
        &[0, 0, 0, 1, 0, 0, 1, 0, 0, 5, 0, 9, 0],
        "refused 3 at 1",
    )?;
    answers(
        &rt,
        &[1, 0, 0, 1, 0, 0, 1, 0, 0, 251, 255, 0, 5, 0, 9, 0],
        "gone 9 come",
    )
}
