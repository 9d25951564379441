// What a line says; and of any line its key and its end.
ghost use Rattle.std.specs.Prelude.{◌≡◌};
ghost use Rattle.std.specs.Fn.{FnOnceReturnsAt};
ghost use Rattle.lines.specs.Lines.{starts_with, line_length, end_of, line_of, ByValue};

use crate::classes::Class;
use refusals::refusal::Reason;

// What a line says, and how many bytes it has with its byte 10. A count line says the count, and a line with an expression the place within the line where
// the expression begins.
#[derive(Clone, Copy)]
pub struct Said<T> {
    pub value: T,
    pub bytes: usize,
}

// The bytes of the line that s begins with, without its byte 10.
#[tactic(auto, unfolding(crate::specs::Lines::line_length))]
pub fn line_length(s: &[u8]) -> usize
    ensures { result ≡ line_length s.now }
{
    crate::classes::prefix_of(Class::InLine, s)
}

// Whether s starts with the key. Of its own, since `starts_with` is the word of the definitions above.
#[tactic(auto, using(crate::proofs::Keys::starts_with_is))]
pub fn starts_with(key: &[u8], s: &[u8]) -> bool
    ensures { result ≡ starts_with key.now s.now }
{
    s.starts_with(key)
}

// Where the line that starts with the key ends, at its byte 10; none, where either is missing. A line with another key is not looked through.
#[tactic(auto, unfolding(crate::specs::Lines::end_of, crate::specs::Lines::is_line))]
pub fn end_of(key: &[u8], s: &[u8]) -> Option<usize>
    ensures { result ≡ end_of key.now s.now }
{
    if !starts_with(key, s) {
        return None;
    }
    let end = line_length(s);
    (end < s.len()).then_some(end)
}

// The line that starts with the key, by what `read` makes of its value, which stands between the key and the byte 10.
#[tactic(auto, using(crate::proofs::Laws::Ended::end_below))]
pub(crate) fn keyed_line<T, F: FnOnce(&[u8]) -> Result<T, Reason>>(
    key: &[u8],
    s: &[u8],
    read: F,
) -> Result<Said<T>, Reason>
    requires { F.IsAlwaysCallable read }
    ensures { ByValue (FnOnceReturnsAt F.FnOnce read) key.now s.now (line_of result) }
{
    let end = end_of(key, s).ok_or(Reason::LineMissing)?;
    let value = read(slices::parts::part(s, key.len(), end))?;
    Ok(Said {
        value,
        bytes: end + 1,
    })
}
