// Sets as the names of their rules.
ghost use Rattle.std.specs.Prelude.{◌≡◌, ◌<◌, ◌^◌};
ghost use Rattle.pages.specs.Page.{page_of, put};
ghost use Rattle.sections.specs.Told.{model_told};
ghost use Rattle.sections.specs.Sections.{name_in, set_text, set_line};

use crate::read_text::ReadText;
use crate::rules::Rules;
use pages::page::Page;
use sets::ruleset::RuleSet;

// The name of a rule.
fn put_name(read: ReadText<'_>, rule: usize, page: &mut Page<'_>)
    requires { rule < read.m.model.rules }
    ensures { page_of page.new ≡ put (name_in (model_told read.entry) rule) (page_of page.old) }
{
    let m = read.m;
    page.put(rule_lines::names::name_of(m.text, m.model.rules()[rule]));
}

// A set of a text's rules.
#[derive(Clone, Copy)]
pub(crate) struct NamedSet<'a> {
    pub(crate) read: ReadText<'a>,
    pub(crate) set: RuleSet,
    ghost few: { set.0 < 2 ^ read.m.model.rules },
}

impl NamedSet<'_> {
    // The names of the set's rules, in the model's order and with commas; `-` where it has none.
    fn put_names(self, page: &mut Page<'_>)
        ensures { page_of page.new ≡ put (set_text (model_told self.entry.read) self.entry.set.0) (page_of page.old) }
    {
        let mut rules = Rules(self.set);
        let Some(first) = rules.next() else {
            page.put_byte(b'-');
            return;
        };
        put_name(self.read, first, page);
        for rule in rules {
            page.put_byte(b',');
            put_name(self.read, rule, page);
        }
    }

    // A line: the key with `=`, the set and byte 10.
    #[tactic(auto, using(pages::specs::Laws::Putting::line_made), unfolding(crate::specs::Sections::set_line))]
    pub(crate) fn put_line(self, key: &[u8], page: &mut Page<'_>)
        ensures { page_of page.new ≡ put (set_line (model_told self.entry.read) key.now self.entry.set.0) (page_of page.old) }
    {
        page.put(key);
        self.put_names(page);
        page.put_byte(b'\n');
    }
}
