// The lines that `chargelog` prints, each from the bytes that it tells of.
#![tactic(auto)]

ghost use Rattle.std.specs.Prelude.{◌≤◌, length};
ghost use Rattle.spec.specs.Decode.{job_of, op_of};
ghost use Rattle.spec.specs.Result.{answer_of, line_of};
ghost use Rattle.spec.specs.Report.{job_line, op_line, at_line, refused_line};
ghost use Rattle.text.specs.Added.{Added, Room};

use text::Text;
use wire::{u8_at, u16_at, u32_at};
use words::{code_word, kind_word};

// "The `job` line has g, c, P, m and the turn count": in the header, g at 2, c at 3, P at 4, m at 8, turn count at 10.
pub fn job_line(text: &mut Text<'_>, job: &[u8])
    requires room { Room 97 text.old }
    requires header { 32 ≤ length job.now }
    ensures { Added 97 (job_line (job_of job.now)) text.old text.new }
{
    text.field(b"job depth ", u8_at(job, 2) as u32);
    text.field(b" capacity ", u8_at(job, 3) as u32);
    text.field(b" pages ", u16_at(job, 4) as u32);
    text.field(b" operations ", u16_at(job, 8) as u32);
    text.field(b" turns ", u16_at(job, 10) as u32);
    text.bytes(b"\n");
}

// "An `op` line has number, kind, call, answer in words, charge, turns used": the operation i and its answer.
pub fn op_line(text: &mut Text<'_>, i: u32, op: &[u8], answer: &[u8])
    requires room { Room 74 text.old }
    requires op { 10 ≤ length op.now }
    requires answer { 8 ≤ length answer.now }
    ensures { Added 74 (op_line i (op_of op.now) (answer_of answer.now)) text.old text.new }
{
    text.field(b"op ", i);
    text.bytes(b" ");
    text.bytes(kind_word(op[0]));
    text.field(b" ", u32_at(op, 2));
    text.bytes(b" ");
    text.bytes(code_word(answer[0]));
    text.field(b" ", u32_at(answer, 4));
    text.field(b" turns ", u16_at(answer, 2) as u32);
    text.bytes(b"\n");
}

// "An `at` line has moment and operation."
pub fn at_line(text: &mut Text<'_>, line: &[u8])
    requires room { Room 28 text.old }
    requires line { 4 ≤ length line.now }
    ensures { Added 28 (at_line (line_of line.now)) text.old text.new }
{
    text.field(b"at ", u16_at(line, 0) as u32);
    text.field(b" op ", u16_at(line, 2) as u32);
    text.bytes(b"\n");
}

// "A refused job prints one line: `refused`, number, place."
pub fn refused_line(text: &mut Text<'_>, number: usize, place: usize)
    requires { Room 50 text.old }
    ensures { Added 50 (refused_line (record { number = number; place = place })) text.old text.new }
{
    text.bytes(b"refused ");
    text.decimal(number);
    text.bytes(b" ");
    text.decimal(place);
    text.bytes(b"\n");
}
