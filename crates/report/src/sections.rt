// The sections of the report, each line by line, from the bytes of the sections that it tells of.
ghost use Rattle.std.specs.Prelude.{◌≡◌, map, option_map, IfSome, ◌+◌, ◌*◌, ◌/◌, ◌≤◌, length, Some};
ghost use Rattle.spec.specs.Basics.{each};
ghost use Rattle.spec.specs.Bytes.{long, parts};
ghost use Rattle.spec.specs.Job.{op_size};
ghost use Rattle.spec.specs.Decode.{op_of, page_of, job_of};
ghost use Rattle.spec.specs.Result.{answer_size, line_size, answer_of, line_of, answers_in, log_in, file_in};
ghost use Rattle.spec.specs.Report.{op_lines, at_line, page_lines, pages_part};
ghost use Rattle.text.specs.Added.{Added, Room};
ghost use Rattle.report.specs.Sound.{OpsSound, LogSound, FileSound, ChargeSound, Counts};

use lines::{at_line, op_line};
use pageline::page_line;
use text::Text;
use wire::{u8_at, u16_at, u32_at};

// Where a job's header has its counts and offsets: c, pages in use, offsets of page table and operations.
const CAPACITY: usize = 3;

const IN_USE: usize = 6;

const TABLE: usize = 16;

const OPS: usize = 20;

// Where a result's header has its own: operations, lines of the log, offsets of answers, log and charge file, the total.
const ANSWER_COUNT: usize = 2;

const LINE_COUNT: usize = 4;

const ANSWERS: usize = 8;

const LOG: usize = 12;

const FILE: usize = 16;

const TOTAL: usize = 20;

// The `op` lines of operations with their answers, one for each.
fn op_lines(text: &mut Text<'_>, ops: &[u8], answers: &[u8])
    requires room { Room (74 * (length answers.now / 8)) text.old }
    requires answered { length ops.now / 10 ≡ length answers.now / 8 }
    requires few { length answers.now / 8 ≤ 256 }
    ensures { Added (74 * (length answers.now / 8)) (op_lines 0 (map op_of (parts (length ops.now / 10) op_size ops.now)) (map answer_of (parts (length answers.now / 8) answer_size answers.now))) text.old text.new }
{
    for (i, (op, answer)) in ops
        .chunks_exact(10)
        .zip(answers.chunks_exact(8))
        .enumerate()
    {
        op_line(text, i as u32, op, answer);
    }
}

// The `at` lines of a log. (Not one function with the words of a page's records: what they share is a loop of one line,
// over a writer with its own contract.)
fn at_lines(text: &mut Text<'_>, log: &[u8])
    requires { Room (28 * (length log.now / 4)) text.old }
    ensures { Added (28 * (length log.now / 4)) (each at_line (map line_of (parts (length log.now / 4) line_size log.now))) text.old text.new }
{
    for line in log.chunks_exact(4) {
        at_line(text, line);
    }
}

// The `page` lines of pages of `size` bytes each. Pages count from 1.
fn page_lines(text: &mut Text<'_>, pages: &[u8], size: usize)
    requires room { Room (230 * (length pages.now / size)) text.old }
    requires size { (4 ≤ size) × (size ≤ 68) }
    requires few { length pages.now / size ≤ 256 }
    requires counts { Counts pages.now size (length pages.now / size) }
    ensures { Added (230 * (length pages.now / size)) (page_lines 1 (map page_of (parts (length pages.now / size) size pages.now))) text.old text.new }
{
    for (i, page) in pages.chunks_exact(size).enumerate() {
        page_line(text, i as u32 + 1, page);
    }
}

// The `op` lines, where the headers say that operations and answers begin.
pub fn answer_lines(text: &mut Text<'_>, job: &[u8], res: &[u8])
    requires { Room 18944 text.old × OpsSound job.now res.now }
    ensures { Added 18944 (op_lines 0 (job_of job.now).ops (answers_in res.now)) text.old text.new }
{
    let m = u16_at(res, ANSWER_COUNT);
    let ops = u32_at(job, OPS) as usize;
    let answers = u32_at(res, ANSWERS) as usize;
    op_lines(
        text,
        &job[ops..ops + 10 * m],
        &res[answers..answers + 8 * m],
    );
}

// The `at` lines, where the result's header says that the log begins.
pub fn log_lines(text: &mut Text<'_>, res: &[u8])
    requires { Room 7168 text.old × LogSound res.now }
    ensures { Added 7168 (each at_line (log_in res.now)) text.old text.new }
{
    let n = u16_at(res, LINE_COUNT);
    let log = u32_at(res, LOG) as usize;
    at_lines(text, &res[log..log + 4 * n]);
}

// The `page` lines: "only with a charge file and for pages in use". (The size of a page is reckoned here, since a report is of bytes and knows no header.)
pub fn file_lines(text: &mut Text<'_>, file: &[u8])
    requires { Room 58880 text.old × FileSound file.now }
    ensures { Added 58880 (pages_part (Some file.now)) text.old text.new }
{
    let size = 4 + 8 * u8_at(file, CAPACITY);
    let used = u16_at(file, IN_USE);
    let table = u32_at(file, TABLE) as usize;
    page_lines(text, &file[table..table + size * used], size);
}

// The charge file of a result, from its offset to the total. A result without one has offset 0.
pub fn charge_file(res: &[u8]) -> Option<&[u8]>
    requires header { 24 ≤ length res.now }
    requires sound { (long res.now 16 ≡ 0 → ⊥) → ChargeSound res.now }
    ensures file { option_map (λ f. f.now) result ≡ file_in res.now }
    ensures sound { IfSome result (λ f. FileSound f.now) }
{
    let file = u32_at(res, FILE) as usize;
    if file == 0 {
        return None;
    }
    let total = u32_at(res, TOTAL) as usize;
    Some(&res[file..total])
}
