// What is read so far of the lines behind `init`, and the places of lines.
ghost use Rattle.std.specs.Prelude.{◌≡◌, IfOk};
ghost use Rattle.lines.specs.Lines.{line_of};
ghost use Rattle.refusals.specs.Answers.{answer_of};
ghost use Rattle.bodies.specs.Body.{behind_line, following, none_read};
ghost use Rattle.bodies.specs.Places.{Placed, Passes, EndsWithin};

use lines::line::Said;
use refusals::refusal::{Reason, Refusal};
use rule_lines::names::RuleParts;

// A place of the text where a line begins, and the number of this line. Without the text: the place is moved on behind a `&mut`, where the text of a struct
// could be exchanged for another.
#[derive(Clone, Copy)]
pub struct LineStart {
    pub at: usize,
    pub line: usize,
}

// What a line says, and the place behind it.
#[derive(Clone, Copy)]
pub struct LineRead<T> {
    pub value: T,
    pub place: LineStart,
}

// The property lines and rule lines read so far, and the place of the line that is due. The arrays are those of the model that is made of them.
#[derive(Clone, Copy)]
pub struct Progress {
    pub place: LineStart,
    pub props: [usize; 4],
    pub parts: [RuleParts; 16],
}

// Before the first property line, which is due at this place.
#[tactic(auto, unfolding(crate::specs::Body::none_read))]
pub fn none_read(place: LineStart) -> Progress
    ensures { result ≡ none_read place }
{
    Progress {
        place,
        props: [0; 4],
        parts: [RuleParts {
            name: 0,
            step: 0,
            start: None,
        }; 16],
    }
}

// The place behind a line of so many bytes.
#[tactic(auto, unfolding(crate::specs::Body::behind_line))]
pub fn behind(text: &[u8], p: LineStart, bytes: usize) -> LineStart
    requires { Passes text.now p bytes }
    ensures { result ≡ behind_line p bytes }
{
    LineStart {
        at: p.at + bytes,
        line: p.line + 1,
    }
}

// What the line at this place says, and the place behind it; a line that is refused refuses the text.
#[tactic(auto, using(crate::specs::Laws::Ranges::places), unfolding(crate::specs::Body::following))]
pub fn on_line<T: Drop>(
    text: &[u8],
    p: LineStart,
    said: Result<Said<T>, Reason>,
) -> Result<LineRead<T>, Refusal>
    requires place_before { Placed text.now p }
    requires ends_within { IfOk said (λ s. EndsWithin text.now p s.bytes) }
    ensures reads { answer_of result ≡ following p (line_of said) }
    ensures place_behind { IfOk result (λ h. Placed text.now h.place) }
{
    let said = said.map_err(|reason| reason.at(p.line))?;
    Ok(LineRead {
        value: said.value,
        place: behind(text, p, said.bytes),
    })
}
