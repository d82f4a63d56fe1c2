// The working memory of a run, in one lent buffer: the directory, the locks, the pages in use, the turns on which entries were changed, and the
// pages. specs/Memory.antt says what stands where. A reader says what stands in the memory, and a writer leaves the memory with one thing
// changed, so that the laws of specs/ tell what every reader then reads.
// (What is asked of the memory, its size and `Within`, stands in no type: a struct over the lent bytes would need of each writer a clause more, that they
// are still the same bytes. What is asked of the numbers x, j, i and n stands in none either: rows and entries keep them as plain numbers.)
#![tactic(auto, unfolding(crate::specs::Memory::entry_in, crate::specs::Memory::with_entry, crate::specs::Memory::lock_in, crate::specs::Memory::used_in, crate::specs::Memory::with_used, crate::specs::Memory::turn_in, crate::specs::Memory::with_turn, crate::specs::Memory::page_in))]

ghost use Rattle.std.specs.Prelude.{◌≡◌, not, ℕ, suc, ◌+◌, ◌-◌, ◌≤◌, ◌<◌, eqb, length, get_or, take, drop, replicate};
ghost use Rattle.spec.specs.Bytes.{byte, word};
ghost use Rattle.spec.specs.File.{zero_page};
ghost use Rattle.spec.specs.Job.{page_size};
ghost use Rattle.spec.specs.Check.{work_size};
ghost use Rattle.spec.specs.Split.{added, grow, least_shared, split_count};
ghost use Rattle.spec.specs.Turn.{cleared};
ghost use Rattle.wire.specs.Over.{over};
ghost use Rattle.pieces.specs.Splits.{Splits, Enough};
ghost use Rattle.memory.specs.Memory.{entry_in, with_entry, lock_in, with_locks, used_in, with_used, turn_in, with_turn, Stands, part_in, page_in, with_page, found_in};
ghost use Rattle.memory.specs.Within.{Within, FileIn, Loads};
ghost use Rattle.memory.specs.Load.{loaded, saved};

use spec::{Found, Rec};
use std::ops::Range;

// What does not change in a run: global depth g, capacity c and page count P.
#[derive(Clone, Copy)]
pub struct Shape {
    pub depth: usize,
    pub capacity: usize,
    pub pages: usize,
}

const LOCKS: usize = 512;

const USED: usize = 1024;

pub const TURNS: usize = 1026;

const PAGES: usize = 5122;

// ---- reading numbers. (A function for each, here and where they are written: each has a definition of its own, of which the
// contracts of a turn speak.)

// Page and turn numbers are kept as u16.
fn number_at(work: &[u8], at: usize) -> u16
    requires { at + 2 ≤ length work.now }
    ensures { result ≡ word work.now at }
{
    wire::u16_at(work, at) as u16
}

// The page number that entry j names.
pub fn entry_at(work: &[u8], j: usize) -> u16
    requires { (work_size ≤ length work.now) × (j < 256) }
    ensures { result ≡ entry_in work.now j }
{
    number_at(work, 2 * j)
}

pub fn is_locked(work: &[u8], x: u16) -> bool
    requires { (work_size ≤ length work.now) × (x ≤ 256) }
    ensures { result ≡ not (eqb (lock_in work.now x) 0) }
{
    wire::u8_at(work, LOCKS + x as usize) != 0
}

// The pages in use.
pub fn used(work: &[u8]) -> usize
    requires { work_size ≤ length work.now }
    ensures { (result ≡ used_in work.now) × (result < 65536) }
{
    wire::u16_at(work, USED)
}

// The turn on which entry e was changed from a page of local depth d.
pub fn change_turn(work: &[u8], e: usize, d: usize) -> u16
    requires { (work_size ≤ length work.now) × (e < 256) × (d < 8) }
    ensures { result ≡ turn_in work.now e d }
{
    number_at(work, TURNS + 2 * (8 * e + d))
}

// ---- reading pages. (Capacity and page number are two arguments: callers have the one in their `Shape`, and the other beside it.
// A function for each thing that is asked of a page, and none that hands its bytes out: so `turn` knows pages by `page_in` alone.)

// The length of a page of capacity c.
fn page_size(c: usize) -> usize
    requires { c ≤ 8 }
    ensures { (result ≡ page_size c) × (result ≤ 68) }
{
    4 + 8 * c
}

// Where page x of capacity c stands.
fn span(c: usize, x: u16) -> Range<usize>
    requires { (c ≤ 8) × (x ≤ 256) }
    ensures { Stands c x result.start result.end }
{
    let size = page_size(c);
    let at = PAGES + size * x as usize;
    at..at + size
}

// The bytes of page x.
fn part(work: &[u8], c: usize, x: u16) -> &[u8]
    requires { Within work.now c x }
    ensures { (result.now ≡ part_in c work.now x) × (length result.now ≡ page_size c) × (byte result.now 1 ≡ length (page_in c work.now x).records) }
{
    &work[span(c, x)]
}

pub fn page_depth(work: &[u8], c: usize, x: u16) -> usize
    requires { Within work.now c x }
    ensures { (result ≡ (page_in c work.now x).depth) × (result < 256) }
{
    page::depth(part(work, c, x))
}

pub fn page_pattern(work: &[u8], c: usize, x: u16) -> usize
    requires { Within work.now c x }
    ensures { (result ≡ (page_in c work.now x).pattern) × (result < 65536) }
{
    page::pattern(part(work, c, x))
}

pub fn page_count(work: &[u8], c: usize, x: u16) -> usize
    requires { Within work.now c x }
    ensures { (result ≡ length (page_in c work.now x).records) × (result < 256) }
{
    page::count(part(work, c, x))
}

// Page x is looked into for a call.
pub fn find_in(work: &[u8], c: usize, x: u16, call: u32) -> Found
    requires { Within work.now c x × (length (page_in c work.now x).records ≤ c) }
    ensures { result ≡ found_in c work.now x call }
{
    page::find(part(work, c, x), x, call)
}

pub fn least_shared_in(work: &[u8], c: usize, x: u16, call: u32) -> usize
    requires { Within work.now c x × (length (page_in c work.now x).records ≤ c) }
    ensures { (result ≡ least_shared (page_in c work.now x).records call) × (result ≤ 32) }
{
    pieces::least_shared(part(work, c, x), call)
}

pub fn split_count_in(work: &[u8], c: usize, x: u16, call: u32) -> usize
    requires { Within work.now c x × (length (page_in c work.now x).records ≤ c) }
    ensures { result ≡ split_count (page_in c work.now x) call }
{
    pieces::split_count(part(work, c, x), call)
}

// ---- writing numbers

pub fn set_entry(work: &mut [u8], j: usize, v: u16)
    requires { (work_size ≤ length work.old) × (j < 256) }
    ensures { work.new ≡ with_entry work.old j v }
{
    wire::put_u16(work, 2 * j, v as usize);
}

// The locks of n pages, from page x on. (Any byte, and no `bool`: `with_locks` is of x, n and any byte, and a narrower type
// would ask more of callers.)
pub fn set_locks(work: &mut [u8], x: u16, n: u16, v: u8)
    requires { (work_size ≤ length work.old) × (x + n ≤ 257) }
    ensures { work.new ≡ with_locks work.old x n v }
{
    let at = LOCKS + x as usize;
    work[at..at + n as usize].fill(v);
}

pub fn set_used(work: &mut [u8], v: usize)
    requires { work_size ≤ length work.old }
    ensures { work.new ≡ with_used work.old v }
{
    wire::put_u16(work, USED, v);
}

pub fn set_change_turn(work: &mut [u8], e: usize, d: usize, v: u16)
    requires { (work_size ≤ length work.old) × (e < 256) × (d < 8) }
    ensures { work.new ≡ with_turn work.old e d v }
{
    wire::put_u16(work, TURNS + 2 * (8 * e + d), v as usize);
}

// ---- writing pages: "A page's bytes are rewritten inside the lent page table, nothing beside them touched"

// An insert puts its record in its place.
pub fn add_to(work: &mut [u8], c: usize, x: u16, r: Rec)
    requires { Within work.old c x × (length (page_in c work.old x).records < c) }
    ensures { work.new ≡ with_page c work.old x (added (page_in c work.old x) r) }
{
    page::add(&mut work[span(c, x)], r);
}

// "Delete closes the gap"
pub fn remove_from(work: &mut [u8], c: usize, x: u16, call: u32)
    requires { Within work.old c x × (length (page_in c work.old x).records ≤ c) }
    ensures { work.new ≡ with_page c work.old x (cleared (page_in c work.old x) call) }
{
    page::remove(&mut work[span(c, x)], call);
}

// The old page of n splits. The outcome is the definition's whatever number of splits it allows, if that is enough.
pub fn write_old_page(work: &mut [u8], c: usize, x: u16, n: usize, r: Rec)
    requires { Within work.old c x × Splits c (page_in c work.old x) r × (n ≡ split_count (page_in c work.old x) r.call) }
    ensures { (g : ℕ) → Enough g (page_in c work.old x) r → work.new ≡ with_page c work.old x (grow c (suc g) (page_in c work.old x) r).old }
{
    pieces::write_old(&mut work[span(c, x)], n, r);
}

// New page number i, from 1, of n splits of page x becomes page y. It is cut out of a copy of page x.
pub fn write_new_page(work: &mut [u8], c: usize, x: u16, y: u16, n: u16, i: u16, r: Rec)
    requires { Within work.old c y × (x < y) × Splits c (page_in c work.old x) r × (n ≡ split_count (page_in c work.old x) r.call) × (1 ≤ i) × (i ≤ n) }
    ensures { (g : ℕ) → Enough g (page_in c work.old x) r → work.new ≡ with_page c work.old y (get_or (grow c (suc g) (page_in c work.old x) r).news (i - 1) zero_page) }
{
    work.copy_within(span(c, x), span(c, y).start);
    pieces::write_new(&mut work[span(c, y)], n as usize, i as usize, r);
}

// ---- the whole file

// The file of a job: its directory, its pages of capacity c, and the number of pages in use. "At the start no page is locked".
pub fn load_file(work: &mut [u8], directory: &[u8], pages: &[u8], c: usize, used: usize)
    requires { Loads work.old directory.now pages.now c }
    ensures { work.new ≡ loaded work.old directory.now pages.now c used }
{
    wire::copy(directory, 0, work, 0, directory.len());
    wire::copy(pages, 0, work, span(c, 1).start, pages.len());
    set_used(work, used);
    set_locks(work, 0, 257, 0);
}

// The directory and the pages, as a charge file has them, from a place of the result on. (`at` is no length, but where the format has them.)
pub fn save_file(work: &[u8], entries: usize, c: usize, pages: usize, out: &mut [u8], at: usize)
    requires { FileIn work.now out.old at entries c pages }
    ensures { out.new ≡ over out.old at (saved work.now entries c pages) }
{
    wire::copy(work, 0, out, at, 2 * entries);
    wire::copy(
        work,
        span(c, 1).start,
        out,
        at + 2 * entries,
        page_size(c) * pages,
    );
}

// "After a run, lent working memory is zero"
pub fn clear_all(work: &mut [u8])
    ensures { work.new ≡ replicate (length work.old) 0 }
{
    work.fill(0);
}
