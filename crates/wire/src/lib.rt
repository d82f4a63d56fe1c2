// "Numbers are little-endian": numbers of 1, 2 and 4 bytes read from and written into a slice at any place, and runs of bytes.
// What a writer leaves is said by one definition, `over`: the bytes at entry with some others from a place on.
#![tactic(auto)]

ghost use Rattle.std.specs.Prelude.{◌≡◌, ◌++◌, ◌+◌, ◌*◌, ◌^◌, ◌≤◌, ◌<◌, length, take, drop, replicate};
ghost use Rattle.spec.specs.Bytes.{byte, word, long, two, four};
ghost use Rattle.spec.specs.Basics.{each};
ghost use Rattle.wire.specs.Over.{over};
ghost use Rattle.wire.specs.Low.{low};

// The readers are three, and none generic: each is one line over its type's conversion in the library, and what they answer differs in type.
pub fn u8_at(s: &[u8], at: usize) -> usize
    requires { at < length s.now }
    ensures { (result ≡ byte s.now at) × (result < 256) }
{
    s[at] as usize
}

pub fn u16_at(s: &[u8], at: usize) -> usize
    requires { at + 2 ≤ length s.now }
    ensures { (result ≡ word s.now at) × (result < 65536) }
{
    u16::from_le_bytes([s[at], s[at + 1]]) as usize
}

pub fn u32_at(s: &[u8], at: usize) -> u32
    requires { at + 4 ≤ length s.now }
    ensures { result ≡ long s.now at }
{
    u32::from_le_bytes([s[at], s[at + 1], s[at + 2], s[at + 3]])
}

// The N lowest bytes of a number, the lowest first.
fn put<const N: usize>(s: &mut [u8], at: usize, v: usize)
    requires { (N ≤ 8) × (at + N ≤ length s.old) }
    ensures { s.new ≡ over s.old at (low N v) }
{
    s[at..at + N].copy_from_slice(&v.to_le_bytes()[..N]);
}

pub fn put_u16(s: &mut [u8], at: usize, v: usize)
    requires { at + 2 ≤ length s.old }
    ensures { s.new ≡ over s.old at (two v) }
{
    put::<2>(s, at, v);
}

pub fn put_u32(s: &mut [u8], at: usize, v: u32)
    requires { at + 4 ≤ length s.old }
    ensures { s.new ≡ over s.old at (four v) }
{
    put::<4>(s, at, v as usize);
}

// Numbers of N bytes, one behind another.
fn put_all<const N: usize>(s: &mut [u8], at: usize, numbers: &[usize])
    requires { (N ≤ 8) × (at + N * length numbers.now ≤ length s.old) }
    ensures { s.new ≡ over s.old at (each (low N) numbers.now) }
{
    for (i, v) in numbers.iter().enumerate() {
        put::<N>(s, at + N * i, *v);
    }
}

// Four numbers of 2, and of 4 bytes.
pub fn put_four_u16(s: &mut [u8], at: usize, a: usize, b: usize, c: usize, d: usize)
    requires { at + 8 ≤ length s.old }
    ensures { s.new ≡ over s.old at (two a ++ two b ++ two c ++ two d) }
{
    put_all::<2>(s, at, &[a, b, c, d]);
}

pub fn put_four_u32(s: &mut [u8], at: usize, a: usize, b: usize, c: usize, d: usize)
    requires { (at + 16 ≤ length s.old) × (a < 2 ^ 32) × (b < 2 ^ 32) × (c < 2 ^ 32) × (d < 2 ^ 32) }
    ensures { s.new ≡ over s.old at (four a ++ four b ++ four c ++ four d) }
{
    put_all::<4>(s, at, &[a, b, c, d]);
}

// n zeros. (`clear` is a function over a method of the library: `front_cleared` and an edit more are of what it ensures.)
pub fn clear(s: &mut [u8], at: usize, n: usize)
    requires { at + n ≤ length s.old }
    ensures { s.new ≡ over s.old at (replicate n 0) }
{
    s[at..at + n].fill(0);
}

// n bytes of another slice. (By no `copy_from_slice`, for which a program in C would have to bring `memmove`.)
pub fn copy(from: &[u8], a: usize, to: &mut [u8], b: usize, n: usize)
    requires { (a + n ≤ length from.now) × (b + n ≤ length to.old) }
    ensures { to.new ≡ over to.old b (take n (drop a from.now)) }
{
    for i in 0..n {
        to[b + i] = from[a + i];
    }
}
