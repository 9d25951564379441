// The reading of a whole model text.
ghost use Rattle.std.specs.Prelude.{◌≡◌, cond, ltb, length, take};
ghost use Rattle.refusals.specs.Answers.{RefusedBy, Given, answer_of};
ghost use Rattle.models.specs.Reading.{behind_init, read_model};
ghost use Rattle.bodies.specs.Places.{PartsDue};

use bodies::progress::{LineStart, Progress};
use refusals::refusal::{Reason, Refusal};
use rule_lines::names::RuleParts;

// A model, by where its parts stand in the text: N, R and how many properties there are, the expression of `init`, that of each property, and the
// parts of each rule. Places of properties and rules that the model lacks are 0, and such rules have no start part.
// The arrays have the greatest size, and how many of their entries count stands beside them: there is no heap, and an `ArrayVec` is not `Copy`, as a model is
// that is handed on by value.
#[derive(Clone, Copy)]
pub struct Model {
    pub vars: usize,
    pub rules: usize,
    pub init: usize,
    pub properties: usize,
    pub props: [usize; 4],
    pub parts: [RuleParts; 16],
}

impl Model {
    // The places of the properties.
    pub fn properties(&self) -> &[usize]
        ensures { result.now ≡ take self.now.properties self.now.props }
    {
        &self.props[..self.properties.min(self.props.len())]
    }

    // The parts of the rules.
    pub fn rules(&self) -> &[RuleParts]
        ensures { result.now ≡ take self.now.rules self.now.parts }
    {
        &self.parts[..self.rules.min(self.parts.len())]
    }
}

// After the last rule line, behind which the place is, no byte may follow.
fn nothing_follows(text: &[u8], place: LineStart) -> Result<(), Refusal>
    ensures { answer_of result ≡ cond (ltb place.at (length text.now)) (RefusedBy 9 place.line) (Given tt) }
{
    if place.at < text.len() {
        return Err(Reason::BytesFollow.at(place.line));
    }
    Ok(())
}

// What follows the line of `init`, from a place on.
#[tactic(auto, using(crate::proofs::Laws::Steps::steps_of_body), unfolding(crate::specs::Reading::behind_init, crate::specs::Reading::body_read, crate::specs::Reading::finished))]
fn read_body(
    text: &[u8],
    vars: usize,
    rules: usize,
    init: usize,
    place: LineStart,
) -> Result<Model, Refusal>
    requires { PartsDue text.now 16 rules place }
    ensures { answer_of result ≡ behind_init text.now vars rules init place }
{
    let properties = bodies::properties::property_count(slices::parts::rest(text, place.at));
    let mut r = bodies::progress::none_read(place);
    bodies::properties::property_lines(text, vars, properties, &mut r)?;
    bodies::rules::rule_lines(text, vars, rules, &mut r)?;
    let Progress {
        place,
        props,
        parts,
    } = r;
    nothing_follows(text, place)?;
    Ok(Model {
        vars,
        rules,
        init,
        properties,
        props,
        parts,
    })
}

// The lines in order, up to the first that is refused. What the body needs room for is in its own function, so that a refusal before it clears none.
#[tactic(auto, using(crate::proofs::Laws::Steps::steps), unfolding(crate::specs::Reading::read_model, crate::specs::Reading::on_line))]
pub fn read_model(text: &[u8]) -> Result<Model, Refusal>
    ensures { answer_of result ≡ read_model text.now }
{
    let start = LineStart { at: 0, line: 1 };
    let first = lines::counts::count_line(b"vars=", 7, text);
    let vars = bodies::progress::on_line(text, start, first)?;
    let second = lines::counts::count_line(b"rules=", 16, slices::parts::rest(text, vars.place.at));
    let rules = bodies::progress::on_line(text, vars.place, second)?;
    let third = lines::expressions::state_line(
        b"init=",
        vars.value,
        slices::parts::rest(text, rules.place.at),
    );
    let init = bodies::progress::on_line(text, rules.place, third)?;
    read_body(
        text,
        vars.value,
        rules.value,
        rules.place.at + init.value,
        init.place,
    )
}
