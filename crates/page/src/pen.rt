// A page that is written from its front, part after part. Whoever writes a line shows that the page has room for each
// part, from the longest that the line can be.
ghost use Rattle.std.specs.Prelude.{◌≡◌, [], ◌∷◌, length};
ghost use Rattle.page.specs.Page.{HasRoom, SamePage, Wrote};

use itoa::{Buffer, Integer};

// A page, and the place in it where the next byte goes; a pen is not dropped, so whoever takes one has to `finish`.
// It is no `fmt::Write`: `write!` promises the bytes only where it succeeds, no clause can say that it does, and these
// methods cannot fail.
pub struct Pen<'a> {
    page: &'a mut [u8],
    at: usize,
}

impl<'a> Pen<'a> {
    // At the front of a page.
    pub fn new(page: &'a mut [u8]) -> Pen<'a>
        ensures same_page { result.page.ghost_name ≡ page.entry.ghost_name }
        ensures page { result.page.now ≡ page.old }
        ensures front { result.at ≡ 0 }
        ensures room { HasRoom result (length page.old) }
    {
        Pen { page, at: 0 }
    }

    pub fn byte(&mut self, byte: u8)
        requires { HasRoom self.old 1 }
        ensures same_page { SamePage self.old self.new }
        ensures wrote { Wrote self.old (byte ∷ []) self.new }
    {
        self.page[self.at] = byte;
        self.at += 1;
    }

    pub fn text(&mut self, text: &[u8])
        requires { HasRoom self.old (length text.now) }
        ensures same_page { SamePage self.old self.new }
        ensures wrote { Wrote self.old text.now self.new }
    {
        let end = self.at + text.len();
        self.page[self.at..end].copy_from_slice(text);
        self.at = end;
    }

    // A number in decimal digits, with no zero in front; a negative one with its sign.
    pub fn number<I: Integer>(&mut self, n: I)
        requires { HasRoom self.old (length (I.text n)) }
        ensures same_page { SamePage self.old self.new }
        ensures wrote { Wrote self.old (I.text n) self.new }
    {
        self.text(Buffer::new().format(n).as_bytes());
    }

    // Hands the page back, and answers how many bytes are written on it.
    pub fn finish(self) -> usize
        ensures same_page { self.exit.0.now ≡ self.entry.page.now }
        ensures count { result ≡ self.entry.at }
    {
        let Pen { page: _, at } = self;
        at
    }
}
