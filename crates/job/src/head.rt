// Rows 1 to 4: the header. (Rows 2 to 4 ask for its bytes themselves, and so does 4 for its limits: a `Headed` reader is what there is when they have
// passed.)
ghost use Rattle.std.specs.Prelude.{◌≡◌, not, ◌+◌, ◌≤◌, length, eqb};
ghost use Rattle.spec.specs.Bytes.{long};
ghost use Rattle.spec.specs.Job.{header_size};
ghost use Rattle.spec.specs.Decode.{header_of};
ghost use Rattle.spec.specs.Check.{outside, short, wrong_version, over_limit, wrong_offset};
ghost use Rattle.laws.specs.Codec.Rows.{Limits};
ghost use Rattle.header.specs.Counts.{counts_of};

use header::Header;

pub fn is_outside(least: usize, most: usize, n: usize) -> bool
    ensures { result ≡ outside least most n }
{
    n < least || most < n
}

// 1 short: "under 32 bytes; place is the length"
pub fn short(job: &[u8]) -> Option<usize>
    ensures { result ≡ short job.now }
{
    (job.len() < Header::SIZE).then_some(job.len())
}

// 2 version: "Job version is 2; version 1 gives refusal 2"
pub fn wrong_version(job: &[u8]) -> Option<usize>
    requires { header_size ≤ length job.now }
    ensures { result ≡ wrong_version job.now }
{
    (wire::u16_at(job, 0) != Header::VERSION).then_some(0)
}

// 3 limit: "a count outside its limits, or U is 0 or above P". (The job is named by the contract alone: its counts are in h.)
pub fn over_limit(job: &[u8], h: Header) -> Option<usize>
    requires { counts_of h ≡ header_of job.now }
    ensures { result ≡ over_limit job.now }
{
    if is_outside(Header::MIN_DEPTH, Header::MAX_DEPTH, h.depth) {
        return Some(2);
    }
    if is_outside(Header::MIN_CAPACITY, Header::MAX_CAPACITY, h.capacity) {
        return Some(3);
    }
    if is_outside(Header::MIN_PAGES, Header::MAX_PAGES, h.pages) {
        return Some(4);
    }
    if is_outside(1, h.pages, h.used) {
        return Some(6);
    }
    if is_outside(Header::MIN_OPS, Header::MAX_OPS, h.ops) {
        return Some(8);
    }
    if is_outside(Header::MIN_TURNS, Header::MAX_TURNS, h.turns) {
        return Some(10);
    }
    None
}

// The number of 4 bytes at a place is not n.
fn differs(job: &[u8], at: usize, n: usize) -> bool
    requires { at + 4 ≤ length job.now }
    ensures { result ≡ not (eqb (long job.now at) n) }
{
    wire::u32_at(job, at) as usize != n
}

// 4 offset: "an offset or total not as computed; length not the total"
pub fn wrong_offset(job: &[u8], h: Header) -> Option<usize>
    requires { (header_size ≤ length job.now) × (counts_of h ≡ header_of job.now) × Limits (counts_of h) }
    ensures { result ≡ wrong_offset job.now }
{
    if differs(job, 12, Header::SIZE) {
        return Some(12);
    }
    if differs(job, 16, h.table_offset()) {
        return Some(16);
    }
    if differs(job, 20, h.ops_offset()) {
        return Some(20);
    }
    if differs(job, 24, h.turns_offset()) {
        return Some(24);
    }
    let total = h.total();
    if differs(job, 28, total) || job.len() != total {
        return Some(28);
    }
    None
}
