// The cores, and the cuts.
ghost use Rattle.std.specs.Prelude.{◌≡◌};
ghost use Rattle.calls.specs.Answers.{list_in};
ghost use Rattle.pages.specs.Page.{page_of, put};
ghost use Rattle.sections.specs.Told.{model_told};
ghost use Rattle.sections.specs.Sections.{list_lines};

use crate::read_text::ReadText;
use crate::rows::ListedSets;
use pages::page::Page;
use sorting::which::WhichList;

// Without a heap the list lies in an array, which has room for every set there could be: so it is never too small, and how many are listed is unwrapped.
pub fn list_lines(read: ReadText<'_>, which: WhichList, page: &mut Page<'_>)
    ensures { page_of page.new ≡ put (list_lines (model_told read.entry) which (list_in which read.entry.m.text.now)) (page_of page.old) }
{
    let mut sets = [0u8; 131072];
    let n = finding::lists::list(read.m, which, &mut sets).unwrap();
    let bytes = &sets[..2 * n];
    ListedSets { read, bytes }.put_list(which, page);
}
