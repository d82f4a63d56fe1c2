// One page's bytes: "l (1), record count (1), pattern (2), then records of call number and charge". A page is the page's part of a
// lent slice, of any capacity: a reader says what the page is that its bytes show, and a writer leaves the bytes of a page, in which
// "a record no longer used, here or after a split, is zero". Nothing beside the page is touched.
// (What is asked of the bytes, be it `Sound` or less, is no field of a struct over the part: a part is lent for one call, so that each caller would build
// `Page { bytes: &mut work[a..e] }` by the proof that `requires` asks for, and be promised something of `self.new.bytes.now` for `page.new`.)
#![tactic(auto)]

ghost use Rattle.std.specs.Prelude.{◌≡◌, Bool, ◌+◌, ◌-◌, ◌≤◌, ◌<◌, length};
ghost use Rattle.spec.specs.Bytes.{byte};
ghost use Rattle.spec.specs.Basics.{each};
ghost use Rattle.spec.specs.File.{look_in, found_of, put_in};
ghost use Rattle.spec.specs.Job.{page_size};
ghost use Rattle.spec.specs.Encode.{record_bytes, page_bytes};
ghost use Rattle.spec.specs.Decode.{page_of};
ghost use Rattle.spec.specs.Split.{added};
ghost use Rattle.spec.specs.Turn.{cleared};
ghost use Rattle.wire.specs.Over.{over};
ghost use Rattle.page.specs.Room.{room, Sound};
ghost use Rattle.page.specs.View.{record_at, records_from};
ghost use Rattle.page.specs.Image.{closed};
ghost use Rattle.page.specs.Put.{place_in};
ghost use Rattle.page.specs.Keep.{Tells, Kept};

use spec::{Found, Rec};

// ---- reading

pub fn depth(page: &[u8]) -> usize
    requires { 4 ≤ length page.now }
    ensures { (result ≡ (page_of page.now).depth) × (result < 256) }
{
    wire::u8_at(page, 0)
}

pub fn count(page: &[u8]) -> usize
    requires { 4 ≤ length page.now }
    ensures { (result ≡ length (page_of page.now).records) × (result ≡ byte page.now 1) × (result < 256) }
{
    wire::u8_at(page, 1)
}

pub fn pattern(page: &[u8]) -> usize
    requires { 4 ≤ length page.now }
    ensures { (result ≡ (page_of page.now).pattern) × (result < 65536) }
{
    wire::u16_at(page, 2)
}

// Record number i, from 0. (No `From`: a record is asked for by its number.)
pub fn rec_at(page: &[u8], i: usize) -> Rec
    requires { page_size (i + 1) ≤ length page.now }
    ensures { result ≡ record_at page.now i }
{
    Rec {
        call: wire::u32_at(page, 4 + 8 * i),
        charge: wire::u32_at(page, 8 + 8 * i),
    }
}

// Page x, whose bytes these are, is looked into for a call: "Looking into a page must .. report which page it was to every caller".
pub fn find(page: &[u8], x: u16, call: u32) -> Found
    requires { page_size (byte page.now 1) ≤ length page.now }
    ensures { result ≡ found_of x (look_in (page_of page.now).records call) }
{
    for i in 0..count(page) {
        let r = rec_at(page, i);
        if call <= r.call {
            let charge = (r.call == call).then_some(r.charge);
            return Found { page: x, charge };
        }
    }
    Found {
        page: x,
        charge: None,
    }
}

// ---- writing. (The number of records goes beside the bytes: `close` writes it into the head, behind all else.)

// Record number i, from 0.
fn put_rec(page: &mut [u8], i: usize, r: Rec)
    requires { page_size (i + 1) ≤ length page.old }
    ensures { page.new ≡ over page.old (page_size i) (record_bytes r) }
{
    wire::put_u32(page, 4 + 8 * i, r.call);
    wire::put_u32(page, 8 + 8 * i, r.charge);
}

// The page has n records: what lies behind them becomes zero, and the head is written.
pub fn close(page: &mut [u8], depth: usize, n: usize, pattern: usize)
    requires { (page_size n ≤ length page.old) × (depth < 256) × (n < 256) }
    ensures { page.new ≡ closed page.old depth n pattern }
{
    let at = 4 + 8 * n;
    let size = page.len();
    wire::clear(page, at, size - at);
    page[0] = depth as u8;
    page[1] = n as u8;
    wire::put_u16(page, 2, pattern);
}

// How many of the first n records stand before the first with a higher number. (Not one search with `find`, nor a halving: both contracts speak of records
// in any order, where the first that is not lower and the first that is higher are two places.)
fn place_of(page: &[u8], n: usize, call: u32) -> usize
    requires { page_size n ≤ length page.now }
    ensures { (result ≡ place_in (records_from page.now 0 n) call) × (result ≤ n) }
{
    for i in 0..n {
        if call < rec_at(page, i).call {
            return i;
        }
    }
    n
}

// The records from number i up to number n move up by one.
fn move_up(page: &mut [u8], i: usize, n: usize)
    requires { (i ≤ n) × (page_size (n + 1) ≤ length page.old) }
    ensures { page.new ≡ over page.old (page_size (i + 1)) (each record_bytes (records_from page.old i (n - i))) }
{
    page.copy_within(4 + 8 * i..4 + 8 * n, 4 + 8 * (i + 1));
}

// One record more among the first n of a page: the higher ones move up, and it goes before them.
pub fn put_in(page: &mut [u8], n: usize, r: Rec)
    requires { page_size (n + 1) ≤ length page.old }
    ensures { page.new ≡ over page.old 4 (each record_bytes (put_in (records_from page.old 0 n) r)) }
{
    let i = place_of(page, n, r.call);
    move_up(page, i, n);
    put_rec(page, i, r);
}

// An insert puts its record in its place. (`add` and `remove` share the head, read before and written after: one function over what comes between
// would take a closure that writes to the page, with its contract as an argument.)
pub fn add(page: &mut [u8], r: Rec)
    requires { Sound page.old × (byte page.old 1 < room (length page.old)) }
    ensures { page.new ≡ page_bytes (room (length page.old)) (added (page_of page.old) r) }
{
    let d = depth(page);
    let p = pattern(page);
    let n = count(page);
    put_in(page, n, r);
    close(page, d, n + 1, p);
}

// The records that stay, moved to the front in their order; how many they are.
pub fn keep<F: Fn(Rec) -> bool>(page: &mut [u8], stays: F) -> usize
    requires { (page_size (byte page.old 1) ≤ length page.old) × F.IsAlwaysCallable stays }
    ensures { (f : Rec → Bool) → Tells (F.post stays) f → Kept f page.old page.new result (byte page.old 1) }
{
    let mut kept = 0;
    for j in 0..count(page) {
        let r = rec_at(page, j);
        if stays(r) {
            put_rec(page, kept, r);
            kept += 1;
        }
    }
    kept
}

// "Delete closes the gap"
pub fn remove(page: &mut [u8], call: u32)
    requires { Sound page.old }
    ensures { page.new ≡ page_bytes (room (length page.old)) (cleared (page_of page.old) call) }
{
    let d = depth(page);
    let p = pattern(page);
    let n = keep(page, |r| r.call != call);
    close(page, d, n, p);
}
