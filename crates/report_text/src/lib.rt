// Lines of text at the front of a lent slice: a word, then numbers in decimal, each behind a tab, and a line feed (T1).
#![tactic(auto)]

ghost use Rattle.std.specs.Prelude.{◌≡◌, [], ◌∷◌, ◌<◌};
ghost use Rattle.report_text.specs.Text.{tab, digit_of, decimal, line};
ghost use Rattle.report_text.specs.Wrote.{Room, Wrote};

// The digit of a number below ten.
fn digit(x: u32) -> u8
    requires { x < 10 }
    ensures { result ≡ digit_of x }
{
    b'0' + x as u8
}

// A text at the front of a lent slice, so many bytes long.
#[derive(Drop)]
pub struct Text<'a> {
    out: &'a mut [u8],
    len: usize,
}

impl<'a> Text<'a> {
    // The empty text.
    pub fn new(out: &'a mut [u8]) -> Self
        ensures same_reference { result.out.ghost_name ≡ out.entry.ghost_name }
        ensures empty { (result.out.now ≡ out.old) × (result.len ≡ 0) }
    {
        Text { out, len: 0 }
    }

    // How many bytes it has.
    pub fn len(&self) -> usize
        ensures { result ≡ self.now.len }
    {
        self.len
    }

    // One byte more.
    fn put_byte(&mut self, x: u8)
        requires { Room self.old.len (x ∷ []) self.old.out.now }
        ensures same_reference { self.new.out.ghost_name ≡ self.old.out.ghost_name }
        ensures wrote { Wrote self.old.len self.new.len (x ∷ []) self.old.out.now self.new.out.now }
    {
        self.out[self.len] = x;
        self.len += 1;
    }

    // A word. Byte by byte, as crate field_writes copies a part.
    fn put_word(&mut self, word: &[u8])
        requires { Room self.old.len (word.now) self.old.out.now }
        ensures same_reference { self.new.out.ghost_name ≡ self.old.out.ghost_name }
        ensures wrote { Wrote self.old.len self.new.len (word.now) self.old.out.now self.new.out.now }
    {
        for i in 0..word.len() {
            self.out[self.len + i] = word[i];
        }
        self.len += word.len();
    }

    // A number's decimal digits: those of a tenth of it, then the last. By hand: `write!` states the bytes that it
    // writes for a String alone, which wants a heap.
    fn put_decimal(&mut self, x: u32)
        requires { Room self.old.len (decimal x) self.old.out.now }
        ensures same_reference { self.new.out.ghost_name ≡ self.old.out.ghost_name }
        ensures wrote { Wrote self.old.len self.new.len (decimal x) self.old.out.now self.new.out.now }
    {
        if x < 10 {
            self.put_byte(digit(x));
        } else {
            self.put_decimal(x / 10);
            self.put_byte(digit(x % 10));
        }
    }

    // A tab and a number.
    fn put_number(&mut self, x: u32)
        requires { Room self.old.len (tab ∷ decimal x) self.old.out.now }
        ensures same_reference { self.new.out.ghost_name ≡ self.old.out.ghost_name }
        ensures wrote { Wrote self.old.len self.new.len (tab ∷ decimal x) self.old.out.now self.new.out.now }
    {
        self.put_byte(b'\t');
        self.put_decimal(x);
    }

    // A line of a word and numbers.
    pub fn line(&mut self, word: &[u8], numbers: &[u32])
        requires { Room self.old.len (line word.now numbers.now) self.old.out.now }
        ensures same_reference { self.new.out.ghost_name ≡ self.old.out.ghost_name }
        ensures wrote { Wrote self.old.len self.new.len (line word.now numbers.now) self.old.out.now self.new.out.now }
    {
        self.put_word(word);
        for x in numbers {
            self.put_number(*x);
        }
        self.put_byte(b'\n');
    }
}
