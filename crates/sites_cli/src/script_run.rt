// A script of requests, one to a line, and the lines that answer it.
use crate::requests::Console;
use lines::not_understood_line;
use script::parse;
use std::alloc::{AllocError, Global};

// What is printed for a script. Each line ends with its newline, but the last one may lack it.
pub fn answer(heap: Global, input: &[u8]) -> Result<String, AllocError> {
    let mut output = String::new(heap);
    let mut console = Console::new(heap);
    let lines = input.split_inclusive(|b| *b == b'\n');
    for (number, line) in lines.enumerate() {
        let text = match parse(line.strip_suffix(b"\n").unwrap_or(line)) {
            Some(request) => console.answer(request)?,
            None => not_understood_line(heap, (number as u64).saturating_add(1))?,
        };
        output.push_str(text.as_str())?;
        output.push_str("\n")?;
    }
    Ok(output)
}
