// Text in a lent buffer: bytes, decimal numbers, and the line `? k`. Each method of a page writes behind what was written. Assumes nothing.
#![tactic(auto)]

ghost use Rattle.std.specs.Prelude.{◌≡◌, [], ◌∷◌, ◌+◌, length};
ghost use Rattle.text.specs.Pages.{Room, Adds};
ghost use Rattle.text.specs.Text.{decimal, field, question_text};

// The bytes of from, in the place of those of to.
// Kept: no copy_from_slice, by which the archive for C would need memmove from whoever links it (the C interface).
pub fn put_bytes(to: &mut [u8], from: &[u8])
    requires { length to.old ≡ length from.now }
    ensures { to.new ≡ from.now }
{
    for (i, b) in to.iter_mut().enumerate() {
        *b = from[i];
    }
}

// A lent buffer and the place in it that is written next.
#[derive(Drop)]
pub struct Page<'a> {
    pub out: &'a mut [u8],
    pub at: usize,
}

impl<'a> Page<'a> {
    pub fn byte(&mut self, b: u8)
        requires { Room 1 self.old }
        ensures exact { self.new.at ≡ self.old.at + 1 }
        ensures adds { Adds 1 self.old self.new (b ∷ []) }
    {
        self.out[self.at] = b;
        self.at += 1;
    }

    pub fn bytes(&mut self, text: &[u8])
        requires { Room (length text.now) self.old }
        ensures exact { self.new.at ≡ self.old.at + length text.now }
        ensures adds { Adds (length text.now) self.old self.new text.now }
    {
        let end = self.at + text.len();
        put_bytes(&mut self.out[self.at..end], text);
        self.at = end;
    }

    // The last digits of n, at most `places` of them.
    pub fn decimal(&mut self, n: u64, places: usize)
        requires { Room places self.old }
        ensures { Adds places self.old self.new (decimal places n) }
    {
        if places == 0 {
            return;
        }
        if n < 10 {
            self.byte(b'0' + n as u8);
            return;
        }
        self.decimal(n / 10, places - 1);
        self.byte(b'0' + (n % 10) as u8);
    }

    // A blank and a number.
    pub fn field(&mut self, n: u64)
        requires { Room 21 self.old }
        ensures { Adds 21 self.old self.new (field n) }
    {
        self.byte(b' ');
        self.decimal(n, 20);
    }

    // The line `? k`.
    pub fn question(&mut self, k: u64)
        requires { Room 23 self.old }
        ensures { Adds 23 self.old self.new (question_text k) }
    {
        self.byte(b'?');
        self.field(k);
        self.byte(b'\n');
    }
}
