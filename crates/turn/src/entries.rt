// Directory entries: a call's own entry, the entries behind a page, and the new page that an entry goes to.
ghost use Rattle.std.specs.Prelude.{◌≡◌, ◌+◌, ◌-◌, ◌*◌, ◌^◌, ◌≤◌, ◌<◌};
ghost use Rattle.turn.specs.Steps.{home, entry_bit, last_one};

use crate::Turn;

impl Turn {
    // The call's own entry.
    #[tactic(auto, unfolding(crate::specs::Steps::home))]
    pub(crate) fn home(self) -> usize
        requires { self.shape.depth ≤ 8 }
        ensures { (result ≡ home self.shape self.op) × (result < 256) }
    {
        key::index(self.op.call, self.shape.depth)
    }
}

// (Functions of plain numbers, as in the definitions, so each asks for the limit of the depth g itself.)

// The entry behind the last one that a pattern of `depth` bits begins.
pub fn behind(g: usize, depth: usize, pattern: usize) -> usize
    requires { (depth ≤ g) × (g ≤ 8) × (pattern < 65536) }
    ensures { result ≡ (pattern + 1) * 2 ^ (g - depth) }
{
    (pattern + 1) << (g - depth)
}

// Bit number d, from the top and from 0, of entry e, which has g bits.
#[tactic(auto, unfolding(crate::specs::Steps::entry_bit))]
fn entry_bit(g: usize, d: usize, e: usize) -> bool
    requires { (d < g) × (g ≤ 8) }
    ensures { result ≡ entry_bit g d e }
{
    (e >> (g - (d + 1))) % 2 == 1
}

// Which new page entry e goes to, counted from 1, or 0, when n splits are made of a page of depth d: bit 1 moves it to the new page, and it is
// split on as long as its bits are the call's. (0, and no `Option`: `Steps.goes` is a number, which `mem_entry` adds to that of the pages in use.)
pub fn last_one(g: usize, call: u32, e: usize, n: usize, d: usize) -> usize
    requires { (d + n ≤ g) × (g ≤ 8) }
    ensures { (result ≡ last_one g call e n d 1 0) × (result ≤ n) }
{
    let key = key::pseudo_key(call);
    let mut last = 0;
    for k in 0..n {
        let one = entry_bit(g, d + k, e);
        if one {
            last = k + 1;
        }
        if one != key::bit(key, d + k) {
            return last;
        }
    }
    last
}
