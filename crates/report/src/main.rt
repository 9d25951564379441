// The report on the model text that standard input begins with. The bytes of the report, and where each page begins if one follows, are told and
// proved in crate `reports`; this reads the input and writes the pages.
#![tactic(auto)]

ghost use Rattle.std.specs.Prelude.{◌≡◌, OnOk};
ghost use Rattle.std.specs.Io.KnownBytes.{Appends};
ghost use Rattle.reports.specs.Report.{report_of, judged_part};

use arrayvec::ArrayVec;
use reports::report::INPUT_BYTES;
use std::io;
use std::io::{Read, Write};

// Writes the report on an input, page by page. Of an error nothing is promised: a writer does not say what it took of the bytes that it failed on.
fn write_report<W: Write>(input: &[u8], out: &mut W) -> io::Result<()>
    ensures { OnOk result (Appends (W.contents out.old) (W.contents out.new) (report_of (judged_part input.now))) }
{
    let mut page = [0u8; 65536];
    let mut next = Some(0);
    while let Some(from) = next {
        let printed = reports::report::report(input, from, &mut page);
        out.write_all(&page[..printed.bytes])?;
        next = printed.next;
    }
    Ok(())
}

// The input lies in the program's own frame: memory that has to be asked for can be refused.
fn main(rt: HostRuntime) -> io::Result<()> {
    let mut input = ArrayVec::<u8, INPUT_BYTES>::new();
    io::copy(&mut rt.stdin().take(INPUT_BYTES as u64), &mut input)?;
    write_report(&input, &mut rt.stdout())
}
