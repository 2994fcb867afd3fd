// The page that lines are printed on: a lent buffer and how much of it is written. Bytes, words and decimal numbers go behind what is
// written. Not by `write!`: std's contracts say what it writes where it answers `Ok`, and none says that it does, so each line could fail.
#![tactic(auto)]

use itoa::{Buffer, Integer};

// A page. Its first `len` bytes are written. The length stands beside the buffer as private state of this one type.
#[derive(Drop)]
pub struct Page<'a> {
    out: &'a mut [u8],
    len: usize,
}

impl<'a> Page<'a> {
    ghost use Rattle.std.specs.Prelude.{◌≡◌, ◌+◌, [], ◌∷◌, ◌++◌, length};
    ghost use Rattle.text.specs.Text.{ascii, decimal, signed};
    ghost use Rattle.text.specs.Page.{Fits, IsEmptyOver, Puts, page_len};

    // A page over a whole buffer, with nothing written.
    pub fn new(out: &'a mut [u8]) -> Page<'a>
        ensures { IsEmptyOver out.entry result }
    {
        Page { out, len: 0 }
    }

    // How many bytes are written.
    pub fn len(&self) -> usize
        ensures { result ≡ page_len self.now }
    {
        self.len
    }

    // Puts one byte. What is added to is how much is written; it counts no loop.
    #[tactic(auto, using(crate::proofs::Writing::stores))]
    pub fn byte(&mut self, b: u8)
        requires { Fits 1 self.old }
        ensures { Puts 1 self.old (b ∷ []) self.new }
    {
        self.out[self.len] = b;
        self.len += 1;
    }

    // Puts all bytes of text.
    #[tactic(auto, using(crate::proofs::Writing::word_stored))]
    pub fn word(&mut self, text: &[u8])
        requires { Fits (length text.now) self.old }
        ensures { Puts (length text.now) self.old text.now self.new }
    {
        let end = self.len + text.len();
        self.out[self.len..end].copy_from_slice(text);
        self.len = end;
    }

    // Puts a space and n's decimal digits, after a minus sign where n is below 0.
    fn spaced<I: Integer>(&mut self, n: I)
        requires { Fits (1 + I.MAX_STR_LEN) self.old }
        ensures { Puts (1 + I.MAX_STR_LEN) self.old (ascii " " ++ I.text n) self.new }
    {
        let mut buffer = Buffer::new();
        self.byte(b' ');
        self.word(buffer.format(n).as_bytes());
    }

    // Puts a space and n's decimal digits. It stays beside `signed`: each promises its digits by a definition of its own.
    #[tactic(auto, using(crate::proofs::Decimal::decimal_written))]
    pub fn number(&mut self, n: u64)
        requires { Fits 21 self.old }
        ensures { Puts 21 self.old (ascii " " ++ decimal n) self.new }
    {
        self.spaced(n);
    }

    // Puts a space and z's decimal digits, after a minus sign where z is below 0.
    #[tactic(auto, using(crate::proofs::Decimal::signed_written))]
    pub fn signed(&mut self, z: i64)
        requires { Fits 22 self.old }
        ensures { Puts 22 self.old (ascii " " ++ signed z) self.new }
    {
        self.spaced(z);
    }
}
