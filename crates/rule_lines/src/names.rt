// The rule lines: a name that no earlier rule has, `:` and a step part, an expression over the bits now and one second later; and behind a second `:`, where
// there is one, a start part, an expression over the bits now.
ghost use Rattle.std.specs.Prelude.{◌≡◌, ◌&&◌, ◌≤◌, leb, eqb, drop};
ghost use Rattle.lines.specs.Lines.{fault_number_of, line_of};
ghost use Rattle.rule_lines.specs.RuleLines.{is_taken, name_of, start_from, parts_fault, rule_line};

use lines::classes::Class;
use lines::line::Said;
use refusals::refusal::Reason;

// Where the parts of a rule stand in the text: its name and its step part; and how many bytes behind the first of the step part its start part begins,
// where it has one. A step part has at most 64 bytes, so that is one byte: a model holds the parts of sixteen rules, and is handed on by value.
#[derive(Clone, Copy)]
pub struct RuleParts {
    pub name: usize,
    pub step: usize,
    pub start: Option<u8>,
}

// A proper name has 1 to 8 bytes, and `:` follows it.
fn is_named(length: usize, next: u8) -> bool
    ensures { result ≡ (leb 1 length && (leb length 8 && eqb next 58)) }
{
    matches!(length, 1..=8) & (next == b':')
}

// The name of a rule whose parts stand at these places. The step part follows it and a `:`.
#[tactic(auto, unfolding(crate::specs::RuleLines::name_of))]
pub fn name_of(text: &[u8], parts: RuleParts) -> &[u8]
    ensures { result.now ≡ name_of text.now parts }
{
    slices::parts::part(text, parts.name, parts.step.saturating_sub(1))
}

// Whether one of the earlier rules has this name.
#[tactic(auto, unfolding(crate::specs::RuleLines::is_taken))]
fn is_taken(text: &[u8], earlier: &[RuleParts], name: &[u8]) -> bool
    ensures { result ≡ is_taken text.now earlier.now name.now }
{
    earlier.iter().any(|parts| slices::parts::same_bytes(name_of(text, *parts), name))
}

// How far behind the first byte of a step part of so many bytes the start part begins, where both stand in e and there is one.
#[tactic(auto, unfolding(crate::specs::RuleLines::start_from))]
fn start_from(step: usize, e: &[u8]) -> Option<u8>
    requires { step ≤ 64 }
    ensures { result ≡ start_from step e.now }
{
    (step < e.len()).then_some((step + 1) as u8)
}

// Whether the parts behind a name may stand there, and if not, why: the step part, which has so many bytes, and after this has passed the start part.
#[tactic(auto, using(crate::proofs::Laws::ByEnd::parts_in_order))]
fn parts_fault(vars: usize, step: usize, e: &[u8]) -> Result<(), Reason>
    ensures { fault_number_of result ≡ parts_fault vars step e.now }
{
    lines::expressions::fault_in(vars, true, slices::parts::front(e, step))?;
    if e.len() <= step {
        return Ok(());
    }
    lines::expressions::fault_in(vars, false, slices::parts::rest(e, step + 1))
}

// The line at a place of the text, after the earlier rules. It takes no closure to `keyed_line`: its places are counted from that of the line, and only of a
// value within the text do their sums fit, which would have to be asked of each call of a closure.
#[tactic(auto, using(crate::proofs::Laws::ByEnd::rule_in_order))]
pub fn rule_line(
    text: &[u8],
    at: usize,
    vars: usize,
    earlier: &[RuleParts],
) -> Result<Said<RuleParts>, Reason>
    ensures { line_of result ≡ rule_line vars (is_taken text.now earlier.now) at (drop at text.now) }
{
    let s = slices::parts::rest(text, at);
    let end = lines::line::end_of(b"rule=", s).ok_or(Reason::LineMissing)?;
    let v = slices::parts::part(s, 5, end);
    let k = lines::classes::prefix_of(Class::InName, v);
    if !is_named(k, slices::parts::byte_at(v, k)) {
        return Err(Reason::NameImproper);
    }
    if is_taken(text, earlier, slices::parts::front(v, k)) {
        return Err(Reason::NameTaken);
    }
    let e = slices::parts::rest(v, k + 1);
    let step = lines::classes::prefix_of(Class::InPart, e);
    parts_fault(vars, step, e)?;
    let value = RuleParts {
        name: at + 5,
        step: at + (6 + k),
        start: start_from(step, e),
    };
    Ok(Said {
        value,
        bytes: end + 1,
    })
}
