// "The operations under way stand in one lent table, a row each": a lent slice of row structs. A row is taken out, a function over one row does
// the work, and the row is put back. (The rows stand beside the operations: C lends the ones, and the job has the others.)
#![tactic(auto)]

ghost use Rattle.std.specs.Prelude.{◌≡◌, ℕ, ◌+◌, ◌*◌, ◌/◌, ◌≤◌, ◌<◌, length, get_or, replicate};
ghost use Rattle.spec.specs.Job.{turn_size};
ghost use Rattle.spec.specs.Check.{work_size};
ghost use Rattle.turn.specs.Rows.{blank_row};
ghost use Rattle.table.specs.Turns.{both, Moves, turn_on, Takes, run_turns};
ghost use Rattle.table.specs.Told.{told, tell_rows};

use memory::Shape;
use turn::Row;

// ---- one value for every row

// Every row becomes `row`. (A function of its own, since the edits `no_row_filled` and `rows_blank_whatever` are of its contract.)
pub fn fill(rows: &mut [Row], row: Row)
    ensures { rows.new ≡ replicate (length rows.old) row }
{
    rows.fill(row);
}

// ---- turns

// "One turn is one step of the operation it names": turn t, of operation i. Most turns of a contended job find their operation waiting, or finished:
// they are told by a look at the row and at one lock.
pub fn take_turn(rows: &mut [Row], i: usize, ops: &[u8], shape: Shape, t: usize, work: &mut [u8])
    requires { (i < length rows.old) × Moves shape ops.now t i (get_or rows.old i blank_row) work.old }
    ensures { both rows.new work.new ≡ turn_on shape ops.now t i (both rows.old work.old) }
{
    let row = rows[i];
    if !row.idles(work) {
        let op = reader::op_at(ops, i);
        rows[i] = row.step(shape, op, t as u16, work);
    }
}

// Every turn, in the order of the turn list.
pub fn turns(rows: &mut [Row], ops: &[u8], list: &[u8], shape: Shape, work: &mut [u8])
    requires { (k : ℕ) → k < length list.now / turn_size → Takes shape ops.now list.now k (run_turns shape ops.now list.now k (both rows.old work.old)) }
    ensures { both rows.new work.new ≡ run_turns shape ops.now list.now (length list.now / turn_size) (both rows.old work.old) }
{
    for t in 0..reader::turn_count(list) {
        let i = reader::turn_at(list, t);
        take_turn(rows, i, ops, shape, t, work);
    }
}

// ---- answers

// The first m operations are told; and how many of them are begun but unfinished. (C lends more rows than there are operations, so m goes beside them.)
pub fn tell_rows(rows: &[Row], m: usize, res: &mut [u8], work: &mut [u8]) -> usize
    requires { (m ≤ length rows.now) × (m ≤ 256) × (24 + 8 * m ≤ length res.old) × (work_size ≤ length work.old) }
    ensures { told res.new work.new result ≡ tell_rows rows.now m (told res.old work.old 0) }
{
    let mut under = 0;
    for i in 0..m {
        under += usize::from(result::tell(rows[i], i, res, work));
    }
    under
}
