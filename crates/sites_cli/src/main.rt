// Reads requests to several sites from standard input, one to a line, and prints a line for each.
#![tactic(auto)]

use script_run::answer;
use std::io;
use std::io::Read;

mod requests;
mod script_run;
#[cfg(test)]
mod tests;

// Kept: each program has its own `main`, which hands on its input and prints what is answered.
fn main(rt: HostRuntime) -> io::Result<()> {
    let mut input = Vec::new(rt.alloc());
    rt.stdin().read_to_end(&mut input)?;
    let output = answer(rt.alloc(), input.as_slice())?;
    print!(rt; "{output}")
}
