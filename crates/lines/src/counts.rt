// The count lines: a key with its `=`, and a count.
ghost use Rattle.std.specs.Prelude.{◌≡◌, ◌<◌};
ghost use Rattle.lines.specs.Lines.{count_in, count_or_none, count_line, line_of};

use crate::line::Said;
use refusals::refusal::Reason;

// The count of one or two digits that v writes in decimal, with no leading zero. Not by `parse`, which takes a sign and leading zeros.
#[tactic(auto, using(crate::proofs::Counting::by_digits))]
fn number_in(v: &[u8]) -> Option<usize>
    ensures { result ≡ count_or_none (count_in 99 v.now) }
{
    match v {
        [b @ b'1'..=b'9'] => Some((b - b'0') as usize),
        [b @ b'1'..=b'9', c @ b'0'..=b'9'] => {
            Some((b - b'0') as usize * 10 + (c - b'0') as usize)
        }
        _ => None,
    }
}

// The count of 1 to `most` that v writes. No greatest count has more than two digits.
#[tactic(auto, using(crate::proofs::Counting::by_number))]
fn count_in(most: usize, v: &[u8]) -> Option<usize>
    requires { most < 100 }
    ensures { result ≡ count_or_none (count_in most v.now) }
{
    number_in(v).filter(|n| *n <= most)
}

// The line with this key and a count of 1 to `most`.
pub fn count_line(key: &[u8], most: usize, s: &[u8]) -> Result<Said<usize>, Reason>
    requires { most < 100 }
    ensures { line_of result ≡ count_line key.now most s.now }
{
    crate::line::keyed_line(key, s, |v| count_in(most, v).ok_or(Reason::CountWrong))
}
