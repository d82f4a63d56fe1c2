// Text written front to back into a lent buffer.
#![tactic(auto)]

ghost use Rattle.std.specs.Prelude.{◌≡◌, ◌++◌, ◌≤◌, ◌+◌, length};
ghost use Rattle.spec.specs.Report.{decimal};
ghost use Rattle.wire.specs.Wrote.{Wrote};
ghost use Rattle.text.specs.Added.{Added, Room, IsIn, buffer, written};

// The digits of n, from place `at` on; the place behind them. The last is written behind all the others, so no digit has to be kept meanwhile. (No
// method of `Text`: so the place goes from call to call in a register, where a method would store and load it for each digit.)
fn put_digits(out: &mut [u8], at: usize, n: usize) -> usize
    requires { at + length (decimal n) ≤ length out.old }
    ensures { Wrote (length (decimal n)) out.old at (decimal n) out.new result }
{
    if n < 10 {
        out[at] = (48 + n) as u8;
        return at + 1;
    }
    let last = put_digits(out, at, n / 10);
    out[last] = (48 + n % 10) as u8;
    last + 1
}

// The text so far is the first `len` bytes of the buffer. (Each method asks for the room that it needs. This is no
// `fmt::Write`, whose methods answer an error: here none can come, and `report`, which cannot fail, would have one to answer.)
#[derive(Drop)]
pub struct Text<'a> {
    out: &'a mut [u8],
    len: usize,
}

impl<'a> Text<'a> {
    pub fn new(out: &'a mut [u8]) -> Text<'a>
        ensures lent { IsIn out.entry result }
        ensures bytes { buffer result ≡ out.old }
        ensures empty { written result ≡ 0 }
    {
        Text { out, len: 0 }
    }

    pub fn len(&self) -> usize
        ensures { result ≡ written self.now }
    {
        self.len
    }

    pub fn bytes(&mut self, s: &[u8])
        requires { Room (length s.now) self.old }
        ensures { Added (length s.now) s.now self.old self.new }
    {
        self.out[self.len..self.len + s.len()].copy_from_slice(s);
        self.len += s.len();
    }

    fn digits(&mut self, n: usize)
        requires { Room (length (decimal n)) self.old }
        ensures { Added (length (decimal n)) (decimal n) self.old self.new }
    {
        self.len = put_digits(self.out, self.len, n);
    }

    // A number of 64 bits has at most twenty digits.
    pub fn decimal(&mut self, n: usize)
        requires { Room 20 self.old }
        ensures { Added 20 (decimal n) self.old self.new }
    {
        self.digits(n);
    }

    // A word, and behind it a number of 32 bits, which has at most ten.
    pub fn field(&mut self, name: &[u8], n: u32)
        requires { Room (length name.now + 10) self.old }
        ensures { Added (length name.now + 10) (name.now ++ decimal n) self.old self.new }
    {
        self.bytes(name);
        self.digits(n as usize);
    }
}
