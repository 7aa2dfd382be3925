ghost use Rattle.std.specs.Prelude.{◌≡◌, ◌+◌, ◌<◌, ◌≤◌, [], ◌∷◌, length, decimal};
ghost use Rattle.output.specs.Written.{over};

use super::decimal::{digit_count, put_digits};

// A line as it is made, at the front of its caller's buffer. Each method ensures that the buffer is still the one that was lent, so that the caller learns what stands in it.
#[derive(Drop)]
pub(crate) struct LineBuffer<'a> {
    out: &'a mut [u8],
    len: usize,
}

impl<'a> LineBuffer<'a> {
    pub(crate) fn new(out: &'a mut [u8]) -> LineBuffer<'a>
        ensures same_buffer { result.out.ghost_name ≡ out.entry.ghost_name }
        ensures bytes { result.out.now ≡ out.old }
        ensures empty { result.len ≡ 0 }
    {
        LineBuffer { out, len: 0 }
    }

    // How long the line is so far.
    pub(crate) fn len(&self) -> usize
        ensures { result ≡ self.now.len }
    {
        self.len
    }

    // Puts a byte behind what is made.
    pub(crate) fn byte(&mut self, byte: u8)
        requires { self.old.len < length self.old.out.now }
        ensures same_buffer { self.new.out.ghost_name ≡ self.old.out.ghost_name }
        ensures room { length self.new.out.now ≡ length self.old.out.now }
        ensures behind { self.new.len ≡ self.old.len + 1 }
        ensures over { self.new.out.now ≡ over self.old.len (byte ∷ []) self.old.out.now }
    {
        self.out[self.len] = byte;
        self.len += 1;
    }

    // Puts a number there, in base ten.
    pub(crate) fn number(&mut self, n: u64)
        requires { self.old.len + length (decimal n) ≤ length self.old.out.now }
        ensures same_buffer { self.new.out.ghost_name ≡ self.old.out.ghost_name }
        ensures room { length self.new.out.now ≡ length self.old.out.now }
        ensures behind { self.new.len ≡ self.old.len + length (decimal n) }
        ensures over { self.new.out.now ≡ over self.old.len (decimal n) self.old.out.now }
    {
        let end = self.len + digit_count(n);
        put_digits(n, self.out, self.len, end);
        self.len = end;
    }

    // Puts bytes there.
    pub(crate) fn word(&mut self, word: &[u8])
        requires { self.old.len + length word.now ≤ length self.old.out.now }
        ensures same_buffer { self.new.out.ghost_name ≡ self.old.out.ghost_name }
        ensures room { length self.new.out.now ≡ length self.old.out.now }
        ensures behind { self.new.len ≡ self.old.len + length word.now }
        ensures over { self.new.out.now ≡ over self.old.len word.now self.old.out.now }
    {
        let end = self.len + word.len();
        self.out[self.len..end].copy_from_slice(word);
        self.len = end;
    }
}
