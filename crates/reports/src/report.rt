// The report of a text.
ghost use Rattle.std.specs.Prelude.{◌≡◌, length};
ghost use Rattle.sets.specs.Lists.{overwritten};
ghost use Rattle.refusals.specs.Numbers.{number_of};
ghost use Rattle.pages.specs.Page.{page_of, put, window, printed_of};
ghost use Rattle.sections.specs.Told.{model_told};
ghost use Rattle.reports.specs.Report.{model_report, refusal_report, report_of, judged_part};

use pages::page::{Page, Printed};
use refusals::refusal::Refusal;
use sections::read_text::ReadText;
use sorting::which::WhichList;

// So many bytes of the input are judged, and no more.
pub const INPUT_BYTES: usize = 4096;

fn refusal_report(refusal: Refusal, page: &mut Page<'_>)
    ensures { page_of page.new ≡ put (refusal_report (number_of refusal.reason) refusal.line) (page_of page.old) }
{
    page.number_line(b"refused=", refusal.reason.number() as usize);
    page.number_line(b"line=", refusal.line);
}

fn model_report(read: ReadText<'_>, page: &mut Page<'_>)
    ensures { page_of page.new ≡ put (model_report (model_told read.entry)) (page_of page.old) }
{
    sections::verdict::verdict_lines(read, page);
    sections::kinds::kind_lines(read, page);
    sections::lists::list_lines(read, WhichList::Cores, page);
    sections::lists::list_lines(read, WhichList::Cuts, page);
}

fn whole_report(text: &[u8], page: &mut Page<'_>)
    ensures { page_of page.new ≡ put (report_of text.now) (page_of page.old) }
{
    match calls::reading::read_text(text) {
        Ok(m) => model_report(ReadText { m }, page),
        Err(refusal) => refusal_report(refusal, page),
    }
}

// The part of an input that is judged.
#[tactic(auto, using(std::proofs::lemmas::List::take_min), unfolding(crate::specs::Report::judged_part))]
fn judged(input: &[u8]) -> &[u8]
    ensures { result.now ≡ judged_part input.now }
{
    &input[..INPUT_BYTES.min(input.len())]
}

// Writes the part of an input's report that begins after `from` bytes, as much as the page takes, and says how many bytes that are, and where the
// next page begins if one follows.
pub fn report(input: &[u8], from: usize, page: &mut [u8]) -> Printed
    ensures value { result ≡ printed_of from (length page.old) (report_of (judged_part input.now)) }
    ensures page_after { page.new ≡ overwritten (window from (length page.old) (report_of (judged_part input.now))) page.old }
{
    let mut lent = Page::new(page, from);
    whole_report(judged(input), &mut lent);
    let bytes = lent.stored();
    let next = lent.goes_on().then_some(from + bytes);
    Printed { bytes, next }
}
