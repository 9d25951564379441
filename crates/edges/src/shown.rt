// How an answer is written, and bytes that it tells.
use calls::verdict::Verdict;
use logs::blame::Blamed;
use lookup::answer::Suffices;
use refusals::refusal::Refusal;
use sets::one_core::OneCore;
use std::io;
use std::io::Write;

// What an accepted call answers, or whether it was accepted. No Display: four of the types are those of other crates, for which it cannot be implemented here.
pub(crate) trait Show {
    fn show<W: Write>(self, out: &mut W) -> io::Result<()>;
}

// A text that was read, where nothing else is asked of it.
#[derive(Clone, Copy)]
pub(crate) struct Accepted;

// What no call is there for.
#[derive(Clone, Copy)]
pub(crate) struct NoSuchCall;

// A word for what was counted, and how many there are.
#[derive(Clone, Copy)]
pub(crate) struct Counted(pub &'static str, pub usize);

// What was blamed from a log of so many states.
#[derive(Clone, Copy)]
pub(crate) struct BlamedIn(pub Blamed, pub usize);

impl<A: Show + Drop> Show for Result<A, Refusal> {
    fn show<W: Write>(self, out: &mut W) -> io::Result<()> {
        match self {
            Ok(answer) => answer.show(out),
            Err(refusal) => refused(out, refusal, '='),
        }
    }
}

impl Show for Accepted {
    fn show<W: Write>(self, out: &mut W) -> io::Result<()> {
        out.write_all(b"accepted")
    }
}

impl Show for NoSuchCall {
    fn show<W: Write>(self, out: &mut W) -> io::Result<()> {
        out.write_all(b"no such call")
    }
}

impl Show for Verdict {
    fn show<W: Write>(self, out: &mut W) -> io::Result<()> {
        match self {
            Verdict::Holds => out.write_all(b"holds"),
            Verdict::Broken(states) => write!(out, "broken states={states}"),
        }
    }
}

impl Show for Counted {
    fn show<W: Write>(self, out: &mut W) -> io::Result<()> {
        let Counted(word, n) = self;
        write!(out, "{word}={n}")
    }
}

impl Show for OneCore {
    fn show<W: Write>(self, out: &mut W) -> io::Result<()> {
        let judgements = self.judgements;
        match self.core {
            Some(set) => write!(out, "core={set} judgements={judgements}"),
            None => write!(out, "no core judgements={judgements}"),
        }
    }
}

impl Show for BlamedIn {
    fn show<W: Write>(self, out: &mut W) -> io::Result<()> {
        let BlamedIn(Blamed { set, breach }, states) = self;
        match breach {
            Some(place) => write!(out, "blamed={set} breach at {place}"),
            None => write!(out, "blamed={set} no breach in {states}"),
        }
    }
}

impl Show for Suffices {
    fn show<W: Write>(self, out: &mut W) -> io::Result<()> {
        match self {
            Suffices::CoreInside(place) => write!(out, "core inside at {place}"),
            Suffices::CutApart(place) => write!(out, "cut apart at {place}"),
            Suffices::Unlisted => out.write_all(b"unlisted"),
        }
    }
}

// A refusal's number and line, each behind its word and a sign.
fn refused(out: &mut impl Write, refusal: Refusal, sign: char) -> io::Result<()> {
    let number = refusal.reason.number();
    let line = refusal.line;
    write!(out, "refused{sign}{number} line{sign}{line}")
}

// The rules of a kind behind its key; there a refusal is written without `=`.
pub(crate) fn rules(
    out: &mut impl Write,
    key: &str,
    answer: Result<u16, Refusal>,
) -> io::Result<()> {
    write!(out, "{key}")?;
    match answer {
        Ok(set) => write!(out, "{set}"),
        Err(refusal) => refused(out, refusal, ' '),
    }
}

// The bytes of a slice, each behind a space.
pub(crate) fn bytes(out: &mut impl Write, key: &str, s: &[u8]) -> io::Result<()> {
    write!(out, "{key}")?;
    for b in s {
        write!(out, " {b}")?;
    }
    Ok(())
}
