// The result of a run, in the lent result buffer: "Header, 24 bytes", answers, log and charge file. The caller tells the operations' rows one
// by one, and then has the rest written. No function here takes the table of rows.
#![tactic(auto)]

ghost use Rattle.std.specs.Prelude.{◌≡◌, ◌+◌, ◌-◌, ◌*◌, ◌^◌, ◌≤◌, ◌<◌, length, SomeIff};
ghost use Rattle.std.specs.Option.{unwrap_or};
ghost use Rattle.spec.specs.File.{File};
ghost use Rattle.spec.specs.Bytes.{word};
ghost use Rattle.spec.specs.Encode.{encode_file};
ghost use Rattle.spec.specs.Split.{digit};
ghost use Rattle.spec.specs.Check.{work_size};
ghost use Rattle.spec.specs.Result.{Result, result_of, line_bytes, result_header};
ghost use Rattle.spec.specs.State.{State};
ghost use Rattle.wire.specs.Over.{over};
ghost use Rattle.header.specs.File.{file_size};
ghost use Rattle.result.specs.Marks.{begun_number, mark_place, row_bytes, with_answer, with_mark};
ghost use Rattle.result.specs.Lines.{line, with_line, LogWritten};
ghost use Rattle.result.specs.Finish.{Heads, FileShown, Ready, Finished};

use header::Header;
use memory::Shape;
use turn::Row;

// "The result's version is 2". The charge file in it is a job, and has the job's version.
const RESULT_VERSION: usize = 2;

const ANSWERS: usize = 24;

// ---- answers. (In this file `at` is where the format has what is written, and `over` says it so. That i, m and the shape are within their limits is
// asked: the result knows of no job, whose reader would have them.)

// "Answer, 8 bytes: code, [page] byte, turns used without waiting (2), charge (4)". The row has the page told as the byte that stands here.
fn put_answer(res: &mut [u8], at: usize, row: Row)
    requires { at + 8 ≤ length res.old }
    ensures { res.new ≡ over res.old at (row_bytes row) }
{
    res[at] = row.code;
    res[at + 1] = row.told;
    wire::put_u16(res, at + 2, row.used as usize);
    wire::put_u32(res, at + 4, row.charge);
}

// Whether an operation is begun but unfinished, by the number of its stage: 0 is not begun, 13 is done. (Not by the stage itself: `begun_number` is
// of any number, and above 13 the two say different things.)
fn begun(stage: u8) -> bool
    ensures { digit result ≡ begun_number stage }
{
    !matches!(stage, 0 | 13)
}

// Operation i is told: its answer in the result, and its mark in the working memory; and whether it is begun but unfinished.
#[tactic(auto, unfolding(crate::specs::Marks::with_answer))]
pub fn tell(row: Row, i: usize, res: &mut [u8], work: &mut [u8]) -> bool
    requires { (i < 256) × (32 + 8 * i ≤ length res.old) × (work_size ≤ length work.old) }
    ensures { (digit result ≡ begun_number row.stage) × (res.new ≡ with_answer row i res.old) × (work.new ≡ with_mark row i work.old) }
{
    put_answer(res, ANSWERS + 8 * i, row);
    put_mark(work, i, row);
    begun(row.stage)
}

// ---- marks

// An operation's mark, 2 bytes in the working memory: 0 where there is no answer yet, else its moment plus 1. The marks stand where the turns of
// changes stood, since nobody asks for those any more. (A number, since two lent bytes hold it: `moment` makes an `Option` of it.)
fn put_mark(work: &mut [u8], i: usize, row: Row)
    requires { (i < 256) × (work_size ≤ length work.old) }
    ensures { work.new ≡ with_mark row i work.old }
{
    let mark = if row.code == 0 {
        0
    } else {
        row.moment as usize + 1
    };
    wire::put_u16(work, memory::TURNS + 2 * i, mark);
}

// The moment of operation i's answer, by its mark.
#[tactic(auto, unfolding(crate::specs::Marks::mark_place))]
fn moment(work: &[u8], i: usize) -> Option<usize>
    requires { (i < 256) × (work_size ≤ length work.now) }
    ensures { SomeIff result (1 ≤ word work.now (mark_place i)) (word work.now (mark_place i) - 1) }
{
    wire::u16_at(work, memory::TURNS + 2 * i).checked_sub(1)
}

// ---- the log

// "Log, 4 bytes a line: moment (a turn number from 0) and operation"
fn put_line(res: &mut [u8], at: usize, moment: usize, op: usize)
    requires { at + 4 ≤ length res.old }
    ensures { res.new ≡ over res.old at (line_bytes (line moment op)) }
{
    wire::put_u16(res, at, moment);
    wire::put_u16(res, at + 2, op);
}

// One line more, in its place: from the last line down, those of later moments move up by a line. (The number of lines goes beside them: it is
// written when there are no more.)
fn place_line(res: &mut [u8], at: usize, lines: usize, moment: usize, op: usize)
    requires { at + 4 * (lines + 1) ≤ length res.old }
    ensures { res.new ≡ with_line res.old at lines (line moment op) }
{
    for j in (0..lines).rev() {
        let p = at + 4 * j;
        let t = wire::u16_at(res, p);
        if t <= moment {
            put_line(res, p + 4, moment, op);
            return;
        }
        let i = wire::u16_at(res, p + 2);
        put_line(res, p + 4, t, i);
    }
    put_line(res, at, moment, op);
}

// The log of the m operations, from place `at` on, and its number of lines. A turn that no operation has its moment on costs nothing.
fn write_log(work: &[u8], m: usize, res: &mut [u8], at: usize) -> usize
    requires { (m ≤ 256) × (work_size ≤ length work.now) × (at + 4 * m ≤ length res.old) }
    ensures { LogWritten work.now m res.old at res.new result }
{
    let mut lines = 0;
    for i in 0..m {
        if let Some(moment) = moment(work, i) {
            place_line(res, at, lines, moment, i);
            lines += 1;
        }
    }
    lines
}

// ---- header and charge file

// "Header, 24 bytes: version .., m, log length L, operations begun but unfinished (2 bytes each); offsets of answers, log and charge file,
// .., and the total (4 each)". Where "there is no charge file .. its offset is 0".
fn write_header(
    res: &mut [u8],
    m: usize,
    lines: usize,
    under: usize,
    file: Option<usize>,
    total: usize,
)
    requires { (24 ≤ length res.old) × (m ≤ 256) × (unwrap_or file 0 < 2 ^ 32) × (total < 2 ^ 32) }
    ensures { (r : Result) → Heads r m lines under (unwrap_or file 0) total → res.new ≡ over res.old 0 (result_header r) }
{
    wire::put_four_u16(res, 0, RESULT_VERSION, m, lines, under);
    wire::put_four_u32(res, 8, ANSWERS, ANSWERS + 8 * m, file.unwrap_or(0), total);
}

// The charge file that the working memory shows.
fn write_file(res: &mut [u8], at: usize, shape: Shape, work: &[u8])
    requires { (work_size ≤ length work.now) × (shape.depth ≤ 8) × (shape.capacity ≤ 8) × (shape.pages ≤ 256) × (at + file_size shape.depth shape.capacity shape.pages ≤ length res.old) }
    ensures { (f : File) → FileShown f shape.depth shape.capacity shape.pages work.now → res.new ≡ over res.old at (encode_file f) }
{
    let used = memory::used(work);
    Header::put_file(res, at, shape.depth, shape.capacity, shape.pages, used);
    memory::save_file(
        work,
        Header::entries_at(shape.depth),
        shape.capacity,
        shape.pages,
        res,
        at + 32,
    );
}

// The log, the header and, where no operation is begun but unfinished, the charge file; and the length of the result.
pub fn finish(res: &mut [u8], work: &[u8], shape: Shape, m: usize, under: usize) -> usize
    requires { (work_size ≤ length work.now) × (shape.depth ≤ 8) × (shape.capacity ≤ 8) × (shape.pages ≤ 256) × (m ≤ 256) × (24 + 12 * m + file_size shape.depth shape.capacity shape.pages ≤ length res.old) }
    ensures { (s : State) → Ready s shape.depth shape.capacity shape.pages m under res.old work.now → Finished (result_of s) res.old res.new result }
{
    let at = ANSWERS + 8 * m;
    let lines = write_log(work, m, res, at);
    let end = at + 4 * lines;
    if under != 0 {
        write_header(res, m, lines, under, None, end);
        return end;
    }
    let total = end + Header::file_length(shape.depth, shape.capacity, shape.pages);
    write_file(res, end, shape, work);
    write_header(res, m, lines, under, Some(end), total);
    total
}
