// The edge cases, run: each line of standard input is a case, and what is written for it is compared with the file `stdout` beside src/. Both files
// were written by hand from documents 01 and 02. The fields of a case stand between semicolons (`cases`): which call it is, a name, and what the
// call is given. A line that starts with `#` says what the next cases are about.
#![tactic(auto)]

mod cases;
mod fields;
mod shown;

use arrayvec::ArrayVec;
use std::io;
use std::io::{Read, Write};

// So many bytes of the input are read, and no more.
const INPUT_BYTES: usize = 65536;

// Each line in order.
fn run(out: &mut impl Write, input: &[u8]) -> io::Result<()> {
    for line in input.split_inclusive(|b| *b == b'\n') {
        if !line.starts_with(b"#") {
            cases::run_line(out, line.strip_suffix(b"\n").unwrap_or(line))?;
        }
    }
    Ok(())
}

// The input lies in the program's own frame: memory that has to be asked for can be refused.
fn main(rt: HostRuntime) -> io::Result<()> {
    let mut input = ArrayVec::<u8, INPUT_BYTES>::new();
    io::copy(&mut rt.stdin().take(INPUT_BYTES as u64), &mut input)?;
    run(&mut rt.stdout(), &input)
}
