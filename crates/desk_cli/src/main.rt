// Reads deeds from standard input, and prints what a desk answers.
#![tactic(auto)]

use deeds::answer;
use std::io;
use std::io::Read;

mod deeds;
#[cfg(test)]
mod tests;

// Kept: each program has its own `main`, which hands on its input and prints what is answered.
fn main(rt: HostRuntime) -> io::Result<()> {
    let mut input = Vec::new(rt.alloc());
    rt.stdin().read_to_end(&mut input)?;
    let output = answer(rt.alloc(), input.as_slice())?;
    print!(rt; "{output}")
}
