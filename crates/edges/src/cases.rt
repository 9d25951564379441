// What each call of a case is given and answers. Field 0 says which call it is, and field 1 is the case's name. Field 2 is a model text, field 3 how many
// bytes are lent, at most eight, and field 4 a set; of a look-up field 2 is the core list and field 3 the cut list, of one core field 3 is the order, and of
// blame the log.
use crate::fields;
use crate::shown::{self, Accepted, BlamedIn, Counted, NoSuchCall, Show};
use sorting::kinds::Kind;
use sorting::which::WhichList;
use std::io::Write;
use std::{io, str};

// A case: the bytes of two fields, how many bytes are lent, and a set.
#[derive(Clone, Copy)]
struct Case<'a> {
    first: &'a [u8],
    second: &'a [u8],
    room: usize,
    set: u32,
}

// Lends so many of eight bytes, eight where there are fewer, and shows the answer and the eight bytes after it. They held 201 to 208 before, so that a byte
// shown from another place is seen.
fn lend<A: Show, F: FnOnce(&mut [u8]) -> A>(
    out: &mut impl Write,
    room: usize,
    call: F,
) -> io::Result<()>
    requires { F.IsAlwaysCallable call }
{
    let mut lent = [201u8, 202, 203, 204, 205, 206, 207, 208];
    let end = room.min(8);
    call(&mut lent[..end]).show(out)?;
    shown::bytes(out, " lent", &lent)
}

impl Case<'_> {
    fn judge(self, out: &mut impl Write) -> io::Result<()> {
        lend(out, self.room, |lent| {
            calls::judging::judge(self.first, self.set, lent)
        })
    }

    fn reach(self, out: &mut impl Write) -> io::Result<()> {
        lend(out, self.room, |lent| {
            calls::reaching::reach(self.first, self.set, lent).map(|pairs| Counted("pairs", pairs))
        })
    }

    fn list(self, out: &mut impl Write, which: WhichList) -> io::Result<()> {
        lend(out, self.room, |lent| {
            calls::listing::list(self.first, which, lent).map(|sets| Counted("sets", sets))
        })
    }

    fn kinds(self, out: &mut impl Write) -> io::Result<()> {
        shown::rules(out, "must=", calls::kinds::give(self.first, Kind::Must))?;
        shown::rules(out, " may=", calls::kinds::give(self.first, Kind::May))?;
        shown::rules(
            out,
            " irr=",
            calls::kinds::give(self.first, Kind::Irrelevant),
        )
    }

    // What every call answers for a text, and for one of its sets.
    fn every_call(self, out: &mut impl Write) -> io::Result<()> {
        let all = Case { room: 8, ..self };
        all.judge(out)?;
        out.write_all(b"\nits reached states: ")?;
        all.reach(out)?;
        out.write_all(b"\nits cores: ")?;
        all.list(out, WhichList::Cores)?;
        out.write_all(b"\nits cuts: ")?;
        all.list(out, WhichList::Cuts)?;
        out.write_all(b"\nits rules: ")?;
        all.kinds(out)
    }

    fn look_up(self, out: &mut impl Write) -> io::Result<()> {
        lookup::suffices::suffices(self.set, self.first, self.second).show(out)?;
        let witness = lookup::suffices::witness(self.set, self.first, self.second);
        if witness.is_empty() {
            out.write_all(b", no witness")
        } else {
            shown::bytes(out, ", witness", witness)
        }
    }

    fn ask(self, out: &mut impl Write, call: &str) -> io::Result<()> {
        match call {
            "read" => models::model::read_model(self.first)
                .map(|_| Accepted)
                .show(out),
            "judge" => self.judge(out),
            "reached" => self.reach(out),
            "cores" => self.list(out, WhichList::Cores),
            "cuts" => self.list(out, WhichList::Cuts),
            "kinds" => self.kinds(out),
            "every call" => self.every_call(out),
            "look up" => self.look_up(out),
            "look up in one list" => Case {
                second: self.first,
                ..self
            }
            .look_up(out),
            "one core" => preferences::one_core::one_core(self.first, self.second).show(out),
            "blame" => blaming::blame::blame(self.first, self.second)
                .map(|blamed| BlamedIn(blamed, self.second.len()))
                .show(out),
            _ => lend(out, self.room, |_| NoSuchCall),
        }
    }
}

// The case's name, and what the call answers. A field that a case lacks is empty: a call that asks none has no field.
pub(crate) fn run_line(out: &mut impl Write, line: &[u8]) -> io::Result<()> {
    let mut fields = line.split(|b| *b == b';');
    let call = fields.next().unwrap_or(b"");
    let name = fields.next().unwrap_or(b"");
    let first = fields::bytes(fields.next().unwrap_or(b""));
    let third = fields.next().unwrap_or(b"");
    let second = fields::bytes(third);
    let case = Case {
        first: &first,
        second: &second,
        room: fields::number(third) as usize,
        set: fields::number(fields.next().unwrap_or(b"")),
    };
    out.write_all(name)?;
    out.write_all(b": ")?;
    // the calls' names are text, and what is none names no call
    case.ask(out, str::from_utf8(call).unwrap_or(""))?;
    out.write_all(b"\n")
}
