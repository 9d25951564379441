// The parts of the body, properties and rules: the lines of one kind are read one after the other.
ghost use Rattle.std.specs.Prelude.{◌≡◌, ◌≤◌, IfOk, length};
ghost use Rattle.refusals.specs.Answers.{answer_of};
ghost use Rattle.bodies.specs.Body.{left, parts_read, last_given};
ghost use Rattle.bodies.specs.Places.{Placed};

use crate::progress::{LineRead, LineStart};
use refusals::refusal::Refusal;

// What a line of one kind says. A property is told by the place of its expression, and a rule by the places of its parts.
pub(crate) trait Part: Copy {
    ghost use Rattle.std.specs.Prelude.{ℕ, List};
    ghost use Rattle.refusals.specs.Answers.{Answer};
    ghost use Rattle.bodies.specs.declared.progress.LineStart.{LineStart};
    ghost use Rattle.bodies.specs.declared.progress.LineRead.{LineRead};

    ghost part_at: { List ℕ → ℕ → LineStart → List Self → Answer (LineRead Self) };

    // What the line at this place says, behind the earlier ones of its kind.
    fn part_at(
        text: &[u8],
        vars: usize,
        place: LineStart,
        earlier: &[Self],
    ) -> Result<LineRead<Self>, Refusal>
        requires { Placed text.now place }
        ensures reads { answer_of result ≡ part_at text.now vars place earlier.now }
        ensures place_behind { IfOk result (λ h. Placed text.now h.place) };
}

// So many lines of one kind from the place on, up to the first that is refused: the lines before it are read all the same. Each is read behind the parts
// before it, so that i tells how many these are.
#[tactic(auto, using(crate::proofs::PartLines::all_kept), unfolding(crate::specs::Body::parts_read, crate::specs::Body::part_put))]
pub(crate) fn part_lines<P: Part>(
    text: &[u8],
    vars: usize,
    count: usize,
    place: &mut LineStart,
    parts: &mut [P],
) -> Result<(), Refusal>
    requires few { count ≤ length parts.old }
    requires place_before { Placed text.now place.old }
    ensures reads { left result (place.new, parts.new) ≡ parts_read (P.part_at text.now vars) (place.old, parts.old) count }
    ensures kept { (place.new, parts.new) ≡ last_given (parts_read (P.part_at text.now vars) (place.old, parts.old)) (place.old, parts.old) count }
{
    for i in 0..count {
        let line = P::part_at(text, vars, *place, &parts[..i])?;
        parts[i] = line.value;
        *place = line.place;
    }
    Ok(())
}
