// Numbers in base ten.
ghost use Rattle.std.specs.Prelude.{◌≡◌};
ghost use Rattle.lines.specs.Decimal.{decimal};
ghost use Rattle.pages.specs.Page.{page_of, put};
ghost use Rattle.pages.specs.Numbers.{number_line};

use crate::page::Page;
use itoa::Buffer;

impl Page<'_> {
    fn put_decimal(&mut self, n: usize)
        ensures { page_of self.new ≡ put (decimal n) (page_of self.old) }
    {
        let mut digits = Buffer::new();
        self.put(digits.format(n).as_bytes());
    }

    // A line: the key with `=`, the number and byte 10.
    #[tactic(auto, using(crate::specs::Laws::Putting::line_made), unfolding(crate::specs::Numbers::number_line))]
    pub fn number_line(&mut self, key: &[u8], n: usize)
        ensures { page_of self.new ≡ put (number_line key.now n) (page_of self.old) }
    {
        self.put(key);
        self.put_decimal(n);
        self.put_byte(b'\n');
    }
}
