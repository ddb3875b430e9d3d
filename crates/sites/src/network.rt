// Two to forty sites.
ghost use Rattle.std.specs.Prelude.{◌≤◌, vec_len};

use crate::site::Site;

pub mod asking;
mod requests;

#[derive(Drop)]
pub struct Sites<const P: u64> {
    sites: Vec<Site<P>>,
    ghost several: { 2 ≤ vec_len sites },
    ghost few: { vec_len sites ≤ 40 },
}
