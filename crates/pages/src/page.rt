// Putting bytes on a page: a lent slice that takes a part of a longer text.
ghost use Rattle.std.specs.Prelude.{◌≡◌};
ghost use Rattle.pages.specs.Page.{page_of, empty_page, put_byte, put};

// The lent bytes, and where the next byte goes: so many are still to be passed over, and then the next is stored at place `at`. `more` notes that
// a byte was left out because the page was full; it makes no Option with `at`, which is told of every page, full or not. The bytes are the caller's,
// of any length, so that no heap is needed: a Vec would need one, and an ArrayVec a length that is fixed.
#[derive(Drop)]
pub struct Page<'a> {
    bytes: &'a mut [u8],
    skip: usize,
    at: usize,
    more: bool,
}

// What is said of a page: it has so many bytes, and the next one, if there is one, begins after so many of the report.
#[derive(Clone, Copy)]
pub struct Printed {
    pub bytes: usize,
    pub next: Option<usize>,
}

impl<'a> Page<'a> {
    // A page on which nothing is put yet, and which passes over the first `skip` bytes.
    pub fn new(bytes: &'a mut [u8], skip: usize) -> Page<'a>
        ensures { page_of result ≡ empty_page skip bytes.old bytes.entry.ghost_name }
    {
        Page {
            bytes,
            skip,
            at: 0,
            more: false,
        }
    }

    // How many bytes are stored.
    pub fn stored(&self) -> usize
        ensures { result ≡ (page_of self.now).at }
    {
        self.at
    }

    // Whether the text goes on behind the page: a byte was left out because the page was full.
    pub fn goes_on(&self) -> bool
        ensures { result ≡ (page_of self.now).more }
    {
        self.more
    }

    // Puts one byte, which is stored if it is not to be passed over and the page has room.
    #[tactic(auto, unfolding(crate::specs::Page::put_byte))]
    pub fn put_byte(&mut self, b: u8)
        ensures { page_of self.new ≡ put_byte b (page_of self.old) }
    {
        if 0 < self.skip {
            self.skip -= 1;
        } else if self.bytes.len() <= self.at {
            self.more = true;
        } else {
            self.bytes[self.at] = b;
            self.at += 1;
        }
    }

    // Puts bytes one after the other.
    pub fn put(&mut self, src: &[u8])
        ensures { page_of self.new ≡ put src.now (page_of self.old) }
    {
        for b in src {
            self.put_byte(*b);
        }
    }
}
