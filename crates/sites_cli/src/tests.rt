// Scripts, and what is printed for them.
use crate::script_run::answer;
use std::process::Abort;
use std::test::Fail;

fn prints(rt: &(impl Abort + AllocGlobal), script: &[u8], output: &str) -> Result<(), Fail> {
    assert_eq!(rt; answer(rt.alloc(), script)?.as_str(), output);
    Ok(())
}

#[test]
fn before_sites_are_opened(rt: HostRuntime) -> Result<(), Fail> {
    prints(&rt, b"", "")?;
    prints(
        &rt,
        b"list 0\nletter 1 4\ncomes 2 5\ngoes 3 5\nask 4 5 take",
        "refused 8 at 0\nrefused 8 at 1\nrefused 8 at 2\nrefused 8 at 3\nrefused 8 at 4\n",
    )?;
    prints(&rt, b"open 41\nopen 2\n", "refused 8 at 41\nopened 2\n")
}

#[test]
fn opened_anew(rt: HostRuntime) -> Result<(), Fail> {
    prints(
        &rt,
        b"open 2\ncomes 0 5\nlist 0\nopen 1\nlist 0\nopen 3\nlist 0\n",
        "opened 2\ndone\n1: 5\nrefused 8 at 1\n1: 5\nopened 3\n0:\n",
    )
}

#[test]
fn asked(rt: HostRuntime) -> Result<(), Fail> {
    prints(
        &rt,
        b"open 2\ncomes 0 5\ncomes 1 9\nask 0 1 join\nlist 0\nask 1 0 take\nletter 1 3\n",
        "opened 2\ndone\ndone\ngone 5 come 9 by 4, 4 sent\n2: 5 9\ngone come 5 by 4, 4 sent\n2: 60 77 96\n",
    )
}

#[test]
fn not_understood(rt: HostRuntime) -> Result<(), Fail> {
    prints(
        &rt,
        b"open\n\nopen 2\r\nask 0 1\ncomes 0 5 6\ngoes 0 5",
        "not understood: line 1\nnot understood: line 2\nopened 2\nnot understood: line 4\nnot understood: line 5\nrefused 6 at 5\n",
    )
}
