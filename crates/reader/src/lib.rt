// "A job reader keeps the lent bytes beside its counts, and shows each section as that part of them": nothing is copied, and nothing is written.
#![tactic(auto)]

mod plain;

ghost use Rattle.std.specs.Prelude.{◌≡◌, [], ◌+◌, ◌-◌, ◌*◌, ◌/◌, ◌^◌, ◌≤◌, ◌<◌, length, get_or, None, Some};
ghost use Rattle.spec.specs.Basics.{if};
ghost use Rattle.spec.specs.Job.{op_size, turn_size, page_size, kind_of};
ghost use Rattle.spec.specs.Decode.{header_of, page_parts, op_parts, op_of, job_of};
ghost use Rattle.spec.specs.Check.{outside};
ghost use Rattle.header.specs.Counts.{counts_of, Heads};
ghost use Rattle.reader.specs.Parts.{directory_in, table_in, ops_in, turns_in, op_at, turn_at};

use header::Header;
use spec::{Kind, Op};

// The bytes of a job, and counts beside them, which need not be those of its header.
#[derive(Clone, Copy)]
pub struct Reader<'a> {
    pub job: &'a [u8],
    pub header: Header,
}

// A reader of which rows 1 to 4 of the refusal table have passed: the counts are those of the job's header, and the bytes have all sections.
#[derive(Clone, Copy)]
pub struct Headed<'a> {
    pub job: &'a [u8],
    pub header: Header,
    pub ghost heads: { Heads header job.now },
}

impl<'a> Headed<'a> {
    // ---- the four sections. (A function for each: where it begins and ends are two formulas of the document, and what it is has a definition of its own.)

    #[tactic(auto, using(crate::specs::PartLaws::in_order), unfolding(crate::specs::Parts::directory_in))]
    pub fn directory(self) -> &'a [u8]
        ensures { result.now ≡ directory_in (counts_of self.entry.header) self.entry.job.now }
    {
        let end = self.header.table_offset();
        &self.job[Header::SIZE..end]
    }

    #[tactic(auto, using(crate::specs::PartLaws::in_order), unfolding(crate::specs::Parts::table_in))]
    pub fn page_table(self) -> &'a [u8]
        ensures { result.now ≡ table_in (counts_of self.entry.header) self.entry.job.now }
    {
        let at = self.header.table_offset();
        let end = self.header.ops_offset();
        &self.job[at..end]
    }

    #[tactic(auto, using(crate::specs::PartLaws::in_order), unfolding(crate::specs::Parts::ops_in))]
    pub fn operations(self) -> &'a [u8]
        ensures { result.now ≡ ops_in (counts_of self.entry.header) self.entry.job.now }
    {
        let at = self.header.ops_offset();
        let end = self.header.turns_offset();
        &self.job[at..end]
    }

    #[tactic(auto, using(crate::specs::PartLaws::in_order), unfolding(crate::specs::Parts::turns_in))]
    pub fn turn_list(self) -> &'a [u8]
        ensures { result.now ≡ turns_in (counts_of self.entry.header) self.entry.job.now }
    {
        let at = self.header.turns_offset();
        let end = self.header.total();
        &self.job[at..end]
    }

    // ---- what stands in them. (That a number is one of the job's entries, pages, operations or turns is asked where it is used:
    // it is the callers who count.)

    // The page that entry j names.
    pub fn entry(self, j: usize) -> usize
        requires { j < 2 ^ self.header.depth }
        ensures { (result ≡ get_or (job_of self.entry.job.now).file.directory j 0) × (result < 65536) }
    {
        wire::u16_at(self.job, Header::SIZE + 2 * j)
    }

    // The bytes of page x, from 1.
    pub fn page(self, x: usize) -> &'a [u8]
        requires { (1 ≤ x) × (x ≤ self.header.pages) }
        ensures { (result.now ≡ get_or (page_parts (header_of self.entry.job.now) self.entry.job.now) (x - 1) []) × (length result.now ≡ page_size self.entry.header.capacity) }
    {
        let at = self.header.page_place(x);
        &self.job[at..at + self.header.page_size()]
    }

    // The bytes of operation i, from 0.
    pub fn op_bytes(self, i: usize) -> &'a [u8; 10]
        requires { i < self.header.ops }
        ensures { result.now ≡ get_or (op_parts (header_of self.entry.job.now) self.entry.job.now) i [] }
    {
        &self.operations().as_chunks().0[i]
    }

    // Operation i, from 0.
    pub fn op(self, i: usize) -> Op
        requires there { i < self.header.ops }
        ensures { result ≡ op_at (ops_in (counts_of self.entry.header) self.entry.job.now) i }
    {
        op_at(self.operations(), i)
    }

    // The operation that turn t names.
    pub fn turn(self, t: usize) -> usize
        requires { t < self.header.turns }
        ensures { (result ≡ get_or (job_of self.entry.job.now).turns t 0) × (result < 65536) }
    {
        wire::u16_at(self.job, self.header.turn_place(t))
    }
}

// ---- what the sections of operations and of turns say, row by row

// "kind (1 search, 2 insert, 3 delete)"
pub fn kind_of(number: usize) -> Option<Kind>
    ensures { result ≡ if (outside 1 3 number) None (Some (kind_of number)) }
{
    match number {
        1 => Some(Kind::Search),
        2 => Some(Kind::Insert),
        3 => Some(Kind::Delete),
        _ => None,
    }
}

// The operation that these bytes say. (Of another kind's number, which row 9 refuses, `Decode.op_of` makes a search. No `From`:
// `Op` is of `spec`, which reads no bytes.)
fn op_of(bytes: &[u8; 10]) -> Op
    ensures { result ≡ op_of bytes.now }
{
    Op {
        kind: kind_of(wire::u8_at(bytes, 0)).unwrap_or(Kind::Search),
        call: wire::u32_at(bytes, 2),
        charge: wire::u32_at(bytes, 6),
    }
}

// Operation i of the operations.
pub fn op_at(ops: &[u8], i: usize) -> Op
    requires { op_size * i + op_size ≤ length ops.now }
    ensures { result ≡ op_at ops.now i }
{
    op_of(&ops.as_chunks().0[i])
}

// How many turns a turn list has.
pub fn turn_count(list: &[u8]) -> usize
    ensures { result ≡ length list.now / turn_size }
{
    list.len() / 2
}

// The operation that turn t of a turn list names.
pub fn turn_at(list: &[u8], t: usize) -> usize
    requires { turn_size * t + turn_size ≤ length list.now }
    ensures { (result ≡ turn_at list.now t) × (result < 65536) }
{
    wire::u16_at(list, 2 * t)
}
