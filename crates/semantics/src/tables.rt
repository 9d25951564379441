// The masks and tables of a model, computed once from its text.
ghost use Rattle.std.specs.Prelude.{◌≡◌, ◌+◌, ◌*◌, ◌^◌, ◌≤◌, length};
ghost use Rattle.semantics.specs.ByText.{described_by};
ghost use Rattle.semantics.specs.TablesOf.{MarksWhere, masks_of, tables_of};
ghost use Rattle.semantics.specs.Places.{meets_all};

use crate::model_text::ModelText;
use crate::written_rules::WrittenRules;
use systems::tables::{STATES, Tables};

// How many states a model of `vars` letters has. Beside `set_count` of sets, since letters are no rules and their bounds differ.
pub fn state_count(vars: usize) -> usize
    requires { vars ≤ 7 }
    ensures { result ≡ 2 ^ vars }
{
    1 << vars
}

// Whether a state meets each of the expressions that stand at these places of the text.
#[tactic(auto, unfolding(crate::specs::Places::meets_all))]
fn meets_all(text: &[u8], places: &[usize], s: usize) -> bool
    ensures { result ≡ meets_all text.now places.now s }
{
    places
        .iter()
        .all(|place| crate::values::is_met(text, *place, s, s))
}

// The marks of the states that pass a test.
fn marks_where<F: Fn(usize) -> bool>(states: usize, test: F) -> [bool; STATES]
    requires few { states ≤ 128 }
    requires callable { F.IsAlwaysCallable test }
    ensures { MarksWhere (F.post test) states result }
{
    let mut marks = [false; STATES];
    for (s, mark) in marks[..states].iter_mut().enumerate() {
        *mark = test(s);
    }
    marks
}

// The masks and tables of a model.
pub fn fill(m: ModelText, masks: &mut [u16]) -> Tables
    requires { 128 * (2 ^ m.model.vars + 1) ≤ length masks.old }
    ensures value { result ≡ tables_of (described_by m.entry) }
    ensures masks_after { masks.new ≡ masks_of masks.old (described_by m.entry) }
{
    let states = state_count(m.model.vars);
    let rules = WrittenRules {
        text: m.text,
        parts: m.model.rules(),
    };
    crate::masks::fill_masks(rules, states, masks);
    let props = m.model.properties();
    Tables {
        rules: m.model.rules,
        states,
        init: marks_where(
            states,
            |s| crate::values::is_met(m.text, m.model.init, s, s),
        ),
        bad: marks_where(states, |s| !meets_all(m.text, props, s)),
    }
}
