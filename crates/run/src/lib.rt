// A job is checked, run turn by turn, and its result written. "Nothing lent is written" where it is refused; after a run the lent table and
// the lent working memory are cleared.
#![tactic(auto)]

ghost use Rattle.std.specs.Prelude.{◌≡◌, List, ℕ, ◌/◌, ◌≤◌, ◌<◌, length, replicate, IfOk};
ghost use Rattle.spec.specs.Decode.{header_of};
ghost use Rattle.spec.specs.Check.{work_size, small_for, small_output, first_fault};
ghost use Rattle.spec.specs.Cases.{told, fault_in};
ghost use Rattle.header.specs.Counts.{counts_of};
ghost use Rattle.memory.specs.Load.{loaded};
ghost use Rattle.turn.specs.Rows.{blank_row};
ghost use Rattle.reader.specs.Parts.{directory_in, table_in, ops_in, turns_in};
ghost use Rattle.table.specs.Turns.{both, Takes};
ghost use Rattle.run.specs.Table.{shape_for, all_turns};
ghost use Rattle.run.specs.Call.{lengths, lent, Accepted, Ran, Settled};

use header::Header;
use memory::Shape;
use reader::Headed;
use spec::{Reason, Refusal};
use turn::Row;

// "other lent working memory under 24,576 bytes"
const WORK_SIZE: usize = 24576;

// ---- the check

// The lengths of what is lent: bytes of output, rows, and bytes of working memory.
#[derive(Clone, Copy)]
pub struct Lent {
    pub output: usize,
    pub rows: usize,
    pub work: usize,
}

impl Lent {
    // of these buffers and this table
    pub fn of(out: &[u8], rows: &[Row], work: &[u8]) -> Lent
        ensures { lengths result ≡ lent out.now rows.now work.now }
    {
        Lent {
            output: out.len(),
            rows: rows.len(),
            work: work.len(),
        }
    }
}

// 11, where an output buffer of `size` bytes is asked for (place 0); "lent table under m rows (place 1); other lent working memory under .. (place
// 2)". Lengths only.
pub fn small_for(h: Header, size: usize, lent: Lent) -> Option<usize>
    ensures { (b : List ℕ) → counts_of h ≡ header_of b → result ≡ small_for size (lengths lent) b }
{
    if lent.output < size {
        return Some(0);
    }
    if lent.rows < h.ops {
        return Some(1);
    }
    if lent.work < WORK_SIZE {
        return Some(2);
    }
    None
}

// 11 output: "result buffer under 24 + 12m + the charge file's length (place 0)"
fn small_output(reader: Headed, lent: Lent) -> Option<usize>
    ensures { result ≡ small_output (lengths lent) reader.entry.job.now }
{
    let h = reader.header;
    let size = 24 + 12 * h.ops + h.ops_offset();
    small_for(h, size, lent)
}

// "11 comes last": every row of the refusal table. A job that meets none comes back as its reader.
fn check_all(job: &[u8], lent: Lent) -> Result<Headed<'_>, Refusal>
    ensures fault { fault_in result ≡ first_fault (lengths lent) job.now }
    ensures read { IfOk result (λ r. r.job ≡ job.entry) }
{
    let reader = job::check(job)?;
    Reason::Output.refuses(small_output(reader, lent))?;
    Ok(reader)
}

// ---- the run

// (Neither type is of this crate, so this is no `From`.)
pub fn shape_of(h: Header) -> Shape
    ensures { result ≡ shape_for h }
{
    Shape {
        depth: h.depth,
        capacity: h.capacity,
        pages: h.pages,
    }
}

// What turns begin with: "The turn list starts from the file as it came in, no page locked", and every row stands "for an operation not begun".
pub fn start(reader: Headed, rows: &mut [Row], work: &mut [u8])
    requires { work_size ≤ length work.old }
    ensures rows { rows.new ≡ replicate (length rows.old) blank_row }
    ensures work { work.new ≡ loaded work.old (directory_in (counts_of reader.entry.header) reader.entry.job.now) (table_in (counts_of reader.entry.header) reader.entry.job.now) reader.entry.header.capacity reader.entry.header.used }
{
    memory::load_file(
        work,
        reader.directory(),
        reader.page_table(),
        reader.header.capacity,
        reader.header.used,
    );
    table::fill(rows, Row::blank());
}

// What they leave: "every row of the lent table has one fixed value", and "lent working memory is zero".
pub fn clear(rows: &mut [Row], work: &mut [u8])
    ensures { (rows.new ≡ replicate (length rows.old) blank_row) × (work.new ≡ replicate (length work.old) 0) }
{
    table::fill(rows, Row::blank());
    memory::clear_all(work);
}

// Every turn of the job.
fn take_turns(reader: Headed, rows: &mut [Row], work: &mut [u8])
    requires { (k : ℕ) → k < length (turns_in (counts_of reader.header) reader.job.now) / 2 → Takes (shape_for reader.header) (ops_in (counts_of reader.header) reader.job.now) (turns_in (counts_of reader.header) reader.job.now) k (all_turns reader.header reader.job.now k (both rows.old work.old)) }
    ensures { both rows.new work.new ≡ all_turns reader.entry.header reader.entry.job.now (length (turns_in (counts_of reader.entry.header) reader.entry.job.now) / 2) (both rows.old work.old) }
{
    table::turns(
        rows,
        reader.operations(),
        reader.turn_list(),
        shape_of(reader.header),
        work,
    );
}

// "A job that meets no row below is run": from the file as it came in to the result; then what was lent is cleared.
fn run_accepted(reader: Headed, res: &mut [u8], rows: &mut [Row], work: &mut [u8]) -> usize
    requires { Accepted reader.job.now res.old rows.old work.old }
    ensures { Ran reader.entry.job.now res.old res.new rows.old rows.new work.old work.new result }
{
    let h = reader.header;
    start(reader, rows, work);
    take_turns(reader, rows, work);
    let under = table::tell_rows(rows, h.ops, res, work);
    let total = result::finish(res, work, shape_of(h), h.ops, under);
    clear(rows, work);
    total
}

// THE LIBRARY: any bytes, and any lent result buffer, table and working memory. (They are three arguments, as C lends them.)
pub fn run(job: &[u8], res: &mut [u8], rows: &mut [Row], work: &mut [u8]) -> Result<usize, Refusal>
    ensures { Settled job.now res.old res.new rows.old rows.new work.old work.new (told result) }
{
    let reader = check_all(job, Lent::of(res, rows, work))?;
    Ok(run_accepted(reader, res, rows, work))
}
