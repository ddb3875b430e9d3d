// Reads a letter and the cards here from standard input, and prints what differs.
#![tactic(auto)]

use request::answer;
use std::io;
use std::io::Read;

mod request;
#[cfg(test)]
mod tests;

// Kept: each program has its own `main`, which hands on its input and prints what is answered.
fn main(rt: HostRuntime) -> io::Result<()> {
    let mut input = Vec::new(rt.alloc());
    rt.stdin().read_to_end(&mut input)?;
    let line = answer(rt.alloc(), input.as_slice())?;
    println!(rt; "{line}")
}
