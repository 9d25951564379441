// A line for each state of a trace, and for each set of a list.
ghost use Rattle.std.specs.Prelude.{◌≡◌, ◌<◌, ◌^◌};
ghost use Rattle.std.specs.List.{All};
ghost use mathlib.Core.List.{flat_map};
ghost use Rattle.lines.specs.Bytes.{bytes};
ghost use Rattle.pages.specs.Page.{page_of, put};
ghost use Rattle.pages.specs.Numbers.{number_line};
ghost use Rattle.sections.specs.Told.{model_told};
ghost use Rattle.sections.specs.Sections.{set_line, count_key, set_key, list_lines};
ghost use Rattle.sections.specs.Decoded.{decoded};

use crate::names::NamedSet;
use crate::read_text::ReadText;
use pages::page::Page;
use sets::ruleset::RuleSet;
use sorting::which::WhichList;

pub(crate) fn state_lines(states: &[u8], page: &mut Page<'_>)
    ensures { page_of page.new ≡ put (flat_map (number_line (bytes "state=")) states.now) (page_of page.old) }
{
    for state in states {
        page.number_line(b"state=", *state as usize);
    }
}

// The keys of a list's lines: that of its count, and that of each of its sets.
#[derive(Clone, Copy)]
struct Keys {
    count: &'static [u8],
    set: &'static [u8],
}

#[tactic(auto, unfolding(crate::specs::Sections::count_key, crate::specs::Sections::set_key))]
fn keys_of(which: WhichList) -> Keys
    ensures count { result.count.now ≡ count_key which }
    ensures set { result.set.now ≡ set_key which }
{
    match which {
        WhichList::Cores => Keys {
            count: b"cores=",
            set: b"core=",
        },
        WhichList::Cuts => Keys {
            count: b"cuts=",
            set: b"cut=",
        },
    }
}

// The sets of a list as bytes, two bytes a set, low byte first; each is a set of a text's rules.
#[derive(Clone, Copy)]
pub(crate) struct ListedSets<'a> {
    pub(crate) read: ReadText<'a>,
    pub(crate) bytes: &'a [u8],
    ghost few: { All (λ S. S < 2 ^ read.m.model.rules) (decoded bytes.now) },
}

impl ListedSets<'_> {
    // A line for each of the sets.
    fn put_lines(self, key: &[u8], page: &mut Page<'_>)
        ensures { page_of page.new ≡ put (flat_map (set_line (model_told self.entry.read) key.now) (decoded self.entry.bytes.now)) (page_of page.old) }
    {
        let read = self.read;
        let (pairs, _) = self.bytes.as_chunks::<2>();
        for pair in pairs {
            let set = RuleSet(u16::from_le_bytes(*pair));
            NamedSet { read, set }.put_line(key, page);
        }
    }

    // The count line of the sets, and a line for each.
    pub(crate) fn put_list(self, which: WhichList, page: &mut Page<'_>)
        ensures { page_of page.new ≡ put (list_lines (model_told self.entry.read) which (decoded self.entry.bytes.now)) (page_of page.old) }
    {
        let keys = keys_of(which);
        page.number_line(keys.count, self.bytes.len() / 2);
        self.put_lines(keys.set, page);
    }
}
