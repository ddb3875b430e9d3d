// What stands in a lent row after a reply.
use decode::Reply;
use std::process::Abort;
use std::test::Fail;

// A word that no test tells, with which lent rows are filled.
pub const FILL: u64 = 77777;

// That these numbers are told: they stand in the row, and the rest of it is as it was.
pub fn tells(
    rt: &impl Abort,
    reply: Reply,
    out: &[u64],
    gone: &[u64],
    come: &[u64],
) -> Result<(), Fail> {
    let Reply::These(went, came) = reply else {
        return Err(Fail::new("nothing is told"));
    };
    assert_eq!(rt; went, gone.len() as u64);
    assert_eq!(rt; came, come.len() as u64);
    let (told, rest) = out.split_at_checked(gone.len()).ok_or("a short row")?;
    assert_eq!(rt; told, gone);
    let (told, rest) = rest.split_at_checked(come.len()).ok_or("a short row")?;
    assert_eq!(rt; told, come);
    unchanged(rt, rest)
}

// That more numbers differ, and that the row is as it was.
pub fn tells_more(rt: &impl Abort, reply: Reply, out: &[u64]) -> Result<(), Fail> {
    match reply {
        Reply::More => unchanged(rt, out),
        Reply::These(_, _) => Err(Fail::new("a difference is told")),
        Reply::Refused(_) => Err(Fail::new("refused")),
    }
}

pub fn unchanged(rt: &impl Abort, out: &[u64]) -> Result<(), Fail> {
    for word in out {
        assert_eq!(rt; *word, FILL);
    }
    Ok(())
}
