// The property lines: how many there are, and the reading of each.
ghost use Rattle.std.specs.Prelude.{◌≡◌, ◌<◌};
ghost use Rattle.bodies.specs.Properties.{after_line, property_count};
ghost use Rattle.bodies.specs.Body.{left, properties_read, last_given};
ghost use Rattle.bodies.specs.Places.{PartsDue};

use crate::parts::Part;
use crate::progress::{LineRead, LineStart, Progress};
use refusals::refusal::Refusal;

// So many property lines at most follow the first.
const MORE: usize = 3;

// What follows the line that s begins with.
#[tactic(auto, using(crate::specs::Laws::Lines::line_within, crate::specs::Laws::Lines::line_dropped))]
fn after_line(s: &[u8]) -> &[u8]
    ensures { result.now ≡ after_line s.now }
{
    slices::parts::rest(s, lines::line::line_length(s) + 1)
}

// How many property lines s begins with, where one is due. The first is one whatever it holds, and at most three more are. Not by `split`, which looks for
// the end of a line before the line can be told to have another key: such a line, however long, is not looked through.
pub fn property_count(s: &[u8]) -> usize
    ensures { result ≡ property_count s.now }
{
    let mut left = after_line(s);
    for more in 0..MORE {
        if !lines::line::starts_with(b"prop=", left) {
            return 1 + more;
        }
        left = after_line(left);
    }
    1 + MORE
}

impl Part for usize {
    ghost use Rattle.bodies.specs.Body.{property_part};

    ghost part_at = { property_part };

    #[tactic(auto, using(crate::specs::Laws::Ranges::state_ends, crate::specs::Laws::Ranges::state_begins), unfolding(crate::specs::Body::property_part, crate::specs::Body::unless_refused))]
    fn part_at(
        text: &[u8],
        vars: usize,
        place: LineStart,
        _earlier: &[usize],
    ) -> Result<LineRead<usize>, Refusal> {
        let rest = slices::parts::rest(text, place.at);
        let said = lines::expressions::state_line(b"prop=", vars, rest);
        let line = crate::progress::on_line(text, place, said)?;
        Ok(LineRead {
            value: place.at + line.value,
            place: line.place,
        })
    }
}

// So many property lines. It stands beside `rule_lines`: which field of the progress is written is all that they do, and each promises it.
#[tactic(auto, using(crate::proofs::PartLines::properties_left))]
pub fn property_lines(
    text: &[u8],
    vars: usize,
    properties: usize,
    r: &mut Progress,
) -> Result<(), Refusal>
    requires { PartsDue text.now 4 properties r.old.place }
    ensures reads { left result r.new ≡ properties_read text.now vars r.old properties }
    ensures kept { r.new ≡ last_given (properties_read text.now vars r.old) r.old properties }
{
    crate::parts::part_lines(text, vars, properties, &mut r.place, &mut r.props)
}
