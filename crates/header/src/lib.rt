// A job's header: its counts, its limits, and where each section begins. The header of a charge file: file.rt
#![tactic(auto)]

mod file;

ghost use Rattle.std.specs.Prelude.{◌≡◌, ◌^◌, ◌≤◌, length};
ghost use Rattle.spec.specs.Job.{header_size, page_size, table_offset, ops_offset, turns_offset, total, page_place, op_place, turn_place};
ghost use Rattle.spec.specs.Decode.{header_of};
ghost use Rattle.laws.specs.Codec.Rows.{Limits};
ghost use Rattle.header.specs.Counts.{counts_of};

// The counts of a job's header, as its bytes say them: g, c, P, U, m and the turn count. (They may be outside their limits, for row 3 asks that of them.
// So the methods below ask for the limits: a type of counts within them would have these same six fields.)
#[derive(Clone, Copy)]
pub struct Header {
    pub depth: usize,
    pub capacity: usize,
    pub pages: usize,
    pub used: usize,
    pub ops: usize,
    pub turns: usize,
}

impl Header {
    // "Header, 32 bytes"
    pub const SIZE: usize = 32;

    // "Job version is 2": of jobs and of charge files. A result has a version of its own.
    pub const VERSION: usize = 2;

    // "The limits belong to the job kind itself: depth 0 to 8, capacity 1 to 8, pages 1 to 256, operations 0 to 256, turns 0 to 16,384"
    pub const MIN_DEPTH: usize = 0;

    pub const MAX_DEPTH: usize = 8;

    pub const MIN_CAPACITY: usize = 1;

    pub const MAX_CAPACITY: usize = 8;

    pub const MIN_PAGES: usize = 1;

    pub const MAX_PAGES: usize = 256;

    pub const MIN_OPS: usize = 0;

    pub const MAX_OPS: usize = 256;

    pub const MIN_TURNS: usize = 0;

    pub const MAX_TURNS: usize = 16384;

    // What the bytes say, within the limits or not. (No `From`, which asks nothing of its argument: this asks for the bytes of a header.)
    pub fn read(job: &[u8]) -> Header
        requires { header_size ≤ length job.now }
        ensures { counts_of result ≡ header_of job.now }
    {
        Header {
            depth: wire::u8_at(job, 2),
            capacity: wire::u8_at(job, 3),
            pages: wire::u16_at(job, 4),
            used: wire::u16_at(job, 6),
            ops: wire::u16_at(job, 8),
            turns: wire::u16_at(job, 10),
        }
    }

    // the number of directory entries
    pub fn entries(self) -> usize
        requires { Limits (counts_of self) }
        ensures { (result ≡ 2 ^ self.depth) × (result ≤ 256) }
    {
        Header::entries_at(self.depth)
    }

    pub fn page_size(self) -> usize
        requires { Limits (counts_of self) }
        ensures { (result ≡ page_size self.capacity) × (result ≤ 68) }
    {
        Header::page_size_at(self.capacity)
    }

    pub fn table_offset(self) -> usize
        requires { Limits (counts_of self) }
        ensures { (result ≡ table_offset (counts_of self)) × (result ≤ 544) }
    {
        Header::table_at(self.depth)
    }

    // The operations begin where a charge file ends.
    pub fn ops_offset(self) -> usize
        requires { Limits (counts_of self) }
        ensures { (result ≡ ops_offset (counts_of self)) × (result ≤ 17952) }
    {
        Header::file_length(self.depth, self.capacity, self.pages)
    }

    pub fn turns_offset(self) -> usize
        requires { Limits (counts_of self) }
        ensures { (result ≡ turns_offset (counts_of self)) × (result ≤ 20512) }
    {
        self.ops_offset() + 10 * self.ops
    }

    pub fn total(self) -> usize
        requires { Limits (counts_of self) }
        ensures { (result ≡ total (counts_of self)) × (result ≤ 53280) }
    {
        self.turns_offset() + 2 * self.turns
    }

    // where page x begins, from 1 (This and the two below are a formula of the document each: one for all would take its numbers as arguments.)
    pub fn page_place(self, x: usize) -> usize
        requires { Limits (counts_of self) × (1 ≤ x) × (x ≤ self.pages) }
        ensures { (result ≡ page_place (counts_of self) x) × (result ≤ 17952) }
    {
        self.table_offset() + self.page_size() * (x - 1)
    }

    // where operation i begins, from 0
    pub fn op_place(self, i: usize) -> usize
        requires { Limits (counts_of self) × (i ≤ self.ops) }
        ensures { (result ≡ op_place (counts_of self) i) × (result ≤ 20512) }
    {
        self.ops_offset() + 10 * i
    }

    // where turn t begins, from 0
    pub fn turn_place(self, t: usize) -> usize
        requires { Limits (counts_of self) × (t ≤ self.turns) }
        ensures { (result ≡ turn_place (counts_of self) t) × (result ≤ 53280) }
    {
        self.turns_offset() + 2 * t
    }
}
