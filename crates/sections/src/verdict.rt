// The verdict on the full set by each property, with its trace.
ghost use Rattle.std.specs.Prelude.{◌≡◌};
ghost use Rattle.sets.specs.Bit.{full};
ghost use Rattle.semantics.specs.ByText.{described_by};
ghost use Rattle.semantics.specs.Meaning.{system_of};
ghost use Rattle.pages.specs.Page.{page_of, put};
ghost use Rattle.sections.specs.Told.{model_told};
ghost use Rattle.sections.specs.Sections.{verdict_lines, verdicts_of};

use crate::read_text::ReadText;
use crate::rows::state_lines;
use pages::page::Page;
use semantics::model_text::ModelText;
use sets::ruleset::RuleSet;

// The verdict on the full set of a model, and its trace, which has no state exactly where the set holds.
fn verdict_of(m: ModelText<'_>, page: &mut Page<'_>)
    ensures { page_of page.new ≡ put (verdict_lines (system_of (described_by m.entry) (full m.entry.model.rules))) (page_of page.old) }
{
    let all = RuleSet::full(m.model.rules);
    let trace = analysis::trace::trace(m, all);
    let states = trace.states();
    if states.is_empty() {
        page.put(b"verdict=holds\n");
    } else {
        page.put(b"verdict=broken\n");
        state_lines(states, page);
    }
}

// The verdicts in the order of the properties, each by its property alone; by the property's number, as `places_by_property` has it.
pub fn verdict_lines(read: ReadText<'_>, page: &mut Page<'_>)
    ensures { page_of page.new ≡ put (verdicts_of (model_told read.entry)) (page_of page.old) }
{
    let ModelText { text, model } = read.m;
    for j in 0..model.properties {
        let alone = ModelText {
            text,
            model: models::changed::by_property(model, j),
        };
        verdict_of(alone, page);
    }
}
