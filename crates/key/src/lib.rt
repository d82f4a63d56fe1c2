// Pseudo keys: the key of a call, the bits that it begins with, and how many leading bits two keys share.
#![tactic(auto)]

ghost use Rattle.std.specs.Prelude.{◌≡◌, suc, ◌%◌, ◌^◌, ◌≤◌, ◌<◌, eqb};
ghost use Rattle.spec.specs.Key.{mixed, pseudo_key, first_bits, index, shared};

// One byte of FNV-1a: "exclusive-or, then times 16777619 modulo 2^32".
fn mix(hash: u32, byte: u8) -> u32
    ensures { result ≡ mixed hash byte }
{
    (byte as u32 ^ hash).wrapping_mul(16777619)
}

// "FNV-1a, 32 bits, as published: start at 2166136261, for each of the four bytes, lowest first".
pub fn pseudo_key(call: u32) -> u32
    ensures { result ≡ pseudo_key call }
{
    call.to_le_bytes()
        .iter()
        .fold(2166136261, |hash, byte| mix(hash, *byte))
}

// The first `depth` bits of a pseudo key, as a number. (A shift of 64 bits, since the shift at depth 0 is by 32.)
pub fn first_bits(key: u32, depth: usize) -> usize
    requires { depth ≤ 32 }
    ensures { (result ≡ first_bits depth key) × (result < 2 ^ depth) }
{
    (key as usize) >> (32 - depth)
}

// The call's first `depth` pseudo-key bits, as a number.
pub fn index(call: u32, depth: usize) -> usize
    requires { depth ≤ 32 }
    ensures { (result ≡ index depth call) × (result < 2 ^ depth) }
{
    first_bits(pseudo_key(call), depth)
}

// Bit number d of a pseudo key, from the top and from 0. (Of the key and not of the call, so that a loop over bits has the key worked out before it.)
pub fn bit(key: u32, d: usize) -> bool
    requires { d < 32 }
    ensures { result ≡ eqb (first_bits (suc d) key % 2) 1 }
{
    first_bits(key, d + 1) % 2 == 1
}

// "How many leading bits two pseudo keys share": the leading zeros of their exclusive-or.
pub fn shared_bits(a: u32, b: u32) -> u32
    ensures { (result ≡ shared 32 a b) × (result ≤ 32) }
{
    u32::leading_zeros(a ^ b)
}
