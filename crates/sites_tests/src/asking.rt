// Sites that ask each other.
use field::modulus::{PRIME, prime_65537};
use field::tally::Tally;
use letter::desks::Deed;
use letter::refusals::Refusal;
use sites::ladder::{Reading, Way};
use sites::network::Sites;
use sites::site::Site;
use std::alloc::Global;
use std::process::Abort;
use std::test::Fail;

// Sites 0 and 1 have the multiples of 7 up to 14,000; site 0 has k more, and site 1 has k more of its own.
fn apart(heap: Global, here: u64, there: u64) -> Result<Sites<PRIME>, Fail> {
    let mut sites = Sites::open(prime_65537(), 3, heap)?;
    let mut tally = Tally::new();
    for k in 0..2000u64 {
        sites.comes(0, 7 * k, &mut tally)?;
        sites.comes(1, 7 * k, &mut tally)?;
    }
    for k in 0..here.min(1000) {
        sites.comes(0, 7 * k + 1, &mut tally)?;
    }
    for k in 0..there.min(1000) {
        sites.comes(1, 7 * k + 2, &mut tally)?;
    }
    Ok(sites)
}

// That the rung of so many values is read, with so many values sent in all, and the list of site 0 is then that of site 1.
fn takes(
    rt: &impl Abort,
    heap: Global,
    here: u64,
    there: u64,
    values: u64,
    sent: u64,
) -> Result<(), Fail> {
    let mut sites = apart(heap, here, there)?;
    let Some(reading) = sites.ask(0, 1, Way::Take, heap)? else {
        return Err(Fail::new("nothing is told"));
    };
    assert_eq!(rt; reading.values, values);
    assert_eq!(rt; reading.sent, sent);
    assert_eq!(rt; reading.difference.gone().len() as u64, here);
    assert_eq!(rt; reading.difference.come().len() as u64, there);
    assert_eq!(rt; sites.list(0)?, sites.list(1)?);
    Ok(())
}

#[test]
fn short_rungs(rt: HostRuntime) -> Result<(), Fail> {
    let heap = rt.alloc();
    takes(&rt, heap, 0, 0, 4, 4)?;
    takes(&rt, heap, 1, 2, 4, 4)?;
    takes(&rt, heap, 2, 2, 8, 12)?;
    takes(&rt, heap, 7, 0, 8, 12)?;
    takes(&rt, heap, 0, 8, 16, 28)
}

#[test]
fn long_rungs(rt: HostRuntime) -> Result<(), Fail> {
    let heap = rt.alloc();
    takes(&rt, heap, 8, 8, 32, 60)?;
    takes(&rt, heap, 31, 1, 64, 124)?;
    takes(&rt, heap, 31, 32, 64, 124)
}

#[test]
fn beyond_the_longest_letter(rt: HostRuntime) -> Result<(), Fail> {
    let heap = rt.alloc();
    let mut sites = apart(heap, 32, 32)?;
    let None = sites.ask(0, 1, Way::Take, heap)? else {
        return Err(Fail::new("not more"));
    };
    assert_eq!(rt; sites.list(0)?.len(), 2032);
    assert_eq!(rt; sites.list(1)?.len(), 2032);
    Ok(())
}

#[test]
fn put_together(rt: HostRuntime) -> Result<(), Fail> {
    let heap = rt.alloc();
    let mut sites = apart(heap, 3, 5)?;
    let Some(reading) = sites.ask(0, 1, Way::Join, heap)? else {
        return Err(Fail::new("nothing is told"));
    };
    assert_eq!(rt; reading.values, 16);
    assert_eq!(rt; sites.list(0)?.len(), 2008);
    assert_eq!(rt; sites.list(1)?.len(), 2005);
    assert_eq!(rt; sites.list(2)?.len(), 0);
    Ok(())
}

fn refused(
    rt: &impl Abort,
    answer: Result<Option<Reading>, Refusal>,
    refusal: Refusal,
) -> Result<(), Fail> {
    match answer {
        Err(told) => {
            assert_eq!(rt; told, refusal);
            Ok(())
        },
        Ok(Some(_)) => Err(Fail::new("a letter is read")),
        Ok(None) => Err(Fail::new("more")),
    }
}

#[test]
fn no_such_site(rt: HostRuntime) -> Result<(), Fail> {
    let heap = rt.alloc();
    let mut sites = Sites::open(prime_65537(), 3, heap)?;
    refused(&rt, sites.ask(3, 9, Way::Take, heap), Refusal::Site(3))?;
    refused(&rt, sites.ask(2, 9, Way::Take, heap), Refusal::Site(9))?;
    refused(&rt, sites.ask(2, 2, Way::Take, heap), Refusal::Site(2))?;
    let mut tally = Tally::new();
    assert_eq!(rt; sites.comes(3, 1, &mut tally), Err(Refusal::Site(3)));
    assert_eq!(rt; sites.goes(7, 1, &mut tally), Err(Refusal::Site(7)));
    assert_eq!(rt;
        sites.comes(0, 65473, &mut tally),
        Err(Refusal::Comes(65473))
    );
    assert_eq!(rt; sites.goes(0, 5, &mut tally), Err(Refusal::Goes(5)));
    Ok(())
}

#[test]
fn deeds(rt: HostRuntime) -> Result<(), Fail> {
    let heap = rt.alloc();
    let mut tally = Tally::new();
    let mut sites = Sites::open(prime_65537(), 3, heap)?;
    sites.does(1, Deed::Comes(5), &mut tally)?;
    sites.does(1, Deed::Comes(9), &mut tally)?;
    sites.does(1, Deed::Goes(5), &mut tally)?;
    assert_eq!(rt; sites.list(1)?, [9].as_slice());
    assert_eq!(rt;
        sites.does(1, Deed::Goes(5), &mut tally),
        Err(Refusal::Goes(5))
    );
    assert_eq!(rt;
        sites.does(3, Deed::Goes(9), &mut tally),
        Err(Refusal::Site(3))
    );
    let mut site = Site::open(prime_65537(), heap)?;
    site.does(Deed::Comes(7), &mut tally)?;
    assert_eq!(rt;
        site.does(Deed::Comes(7), &mut tally),
        Err(Refusal::Comes(7))
    );
    assert_eq!(rt; site.list(), [7].as_slice());
    Ok(())
}

#[test]
fn how_many_sites(rt: HostRuntime) -> Result<(), Fail> {
    let heap = rt.alloc();
    assert_eq!(rt; Sites::open(prime_65537(), 40, heap)?.len(), 40);
    assert_eq!(rt; Sites::open(prime_65537(), 2, heap)?.len(), 2);
    for n in [0, 1, 41] {
        match Sites::open(prime_65537(), n, heap) {
            Err(refusal) => assert_eq!(rt; refusal, Refusal::Site(n)),
            Ok(_) => return Err(Fail::new("opened")),
        }
    }
    Ok(())
}

// Site 0 has the numbers below 60,000, and site 1 has 1 more than each of them.
#[test]
fn full_lists(rt: HostRuntime) -> Result<(), Fail> {
    let heap = rt.alloc();
    let mut sites = Sites::open(prime_65537(), 2, heap)?;
    let mut tally = Tally::new();
    for n in 0..60000u64 {
        sites.comes(0, n, &mut tally)?;
        sites.comes(1, n + 1, &mut tally)?;
    }
    assert_eq!(rt; sites.comes(0, 60001, &mut tally), Err(Refusal::Full));
    refused(&rt, sites.ask(0, 1, Way::Join, heap), Refusal::Full)?;
    assert_eq!(rt; sites.list(0)?.first().copied(), Some(0));
    assert_eq!(rt; sites.list(0)?.len(), 60000);
    let Some(reading) = sites.ask(0, 1, Way::Take, heap)? else {
        return Err(Fail::new("nothing is told"));
    };
    assert_eq!(rt; reading.difference.gone(), [0].as_slice());
    assert_eq!(rt; reading.difference.come(), [60000].as_slice());
    assert_eq!(rt; sites.list(0)?, sites.list(1)?);
    Ok(())
}
