// The rules of each kind.
ghost use Rattle.std.specs.Prelude.{◌≡◌};
ghost use Rattle.calls.specs.Answers.{judge_in};
ghost use Rattle.pages.specs.Page.{page_of, put};
ghost use Rattle.sections.specs.Told.{model_told};
ghost use Rattle.sections.specs.Sections.{kind_lines};

use crate::names::NamedSet;
use crate::read_text::ReadText;
use pages::page::Page;
use sets::ruleset::RuleSet;

// MUST, MAY and the irrelevant rules. The sets are judged once for all three. Each set is named where it is written, and no loop goes over three keys and sets.
pub fn kind_lines(read: ReadText<'_>, page: &mut Page<'_>)
    ensures { page_of page.new ≡ put (kind_lines (model_told read.entry) (judge_in read.entry.m.text.now)) (page_of page.old) }
{
    let kinds = finding::kinds::kinds(read.m);
    let must = NamedSet {
        read,
        set: RuleSet(kinds.must),
    };
    let may = NamedSet {
        read,
        set: RuleSet(kinds.may),
    };
    let irrelevant = NamedSet {
        read,
        set: RuleSet(kinds.irrelevant),
    };
    must.put_line(b"must=", page);
    may.put_line(b"may=", page);
    irrelevant.put_line(b"irr=", page);
}
