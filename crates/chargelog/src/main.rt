// Reads a job from standard input, runs it, and prints answers, log and pages, or the refusal.
#![tactic(auto)]

ghost use Rattle.std.specs.Prelude.{◌≡◌, ◌≤◌, length, OnOk, Some, Err};
ghost use Rattle.std.specs.Io.KnownBytes.{Keeps};
ghost use Rattle.chargelog.specs.Failure.{message};
ghost use Rattle.chargelog.specs.Input.{Within, ReadsFirst, Says, Shows, Answers};

use std::env::FillError;
use std::io::{Read, Write};
use std::rt::Env;
use std::{fmt, io};

// Why a job has no answer.
#[derive(Clone, Copy)]
enum Failure {
    NotRead,
    NotWritten,
}

impl fmt::Display for Failure {
    ghost output = { λ failure. Some (message failure) };

    fn fmt<W: fmt::Write>(&self, f: &mut fmt::Formatter<W>) -> fmt::Result {
        match self {
            Failure::NotRead => f.write_str("standard input cannot be read"),
            Failure::NotWritten => f.write_str("standard output cannot be written"),
        }
    }
}

// Reads until the buffer is full or the input ends, and answers how many bytes that were. A read gives as many bytes as it likes, so the loop is no
// count. (Here and below a buffer has its length beside it: there is no heap.)
fn read_job<R: Read>(input: &mut R, job: &mut [u8]) -> Result<usize, Failure>
    ensures within { Within job.new result }
    ensures first { ReadsFirst (R.remaining input.old) job.new result }
{
    let mut n: usize = 0;
    while n < job.len() {
        let more = input.read(&mut job[n..]).map_err(|_| Failure::NotRead)?;
        if more == 0 {
            break;
        }
        n += more;
    }
    Ok(n)
}

// What is printed for the job, and its length. What is lent is enough for every job, so that refusal 11 never comes, and there is room.
fn text_of(job: &[u8], text: &mut [u8]) -> usize
    requires { 85089 ≤ length text.old }
    ensures { Says job.now text.new result }
{
    let mut result = [0u8; 21048];
    let mut work = [0u8; 24576];
    print::print(job, &mut result, &mut work, text).unwrap()
}

// Writes what is printed for the job.
fn show<W: Write>(job: &[u8], output: &mut W) -> io::Result<()>
    ensures { OnOk result (Shows job.now (W.contents output.old) (W.contents output.new)) }
{
    let mut text = [0u8; 85089];
    let n = text_of(job, &mut text);
    output.write_all(&text[..n])
}

// Writes what is printed for the job that the input holds. No job is longer than 53,280 bytes. One byte more already decides every refusal: the
// length is then not the total (refusal 4, place 28), unless a lower row or a lower place holds of the header, whatever follows.
// (laws: `Codec/Longest.front_decides`)
fn print_job<R: Read, W: Write>(input: &mut R, output: &mut W) -> Result<(), Failure>
    ensures answers { OnOk result (Answers (R.remaining input.old) (W.contents output.old) (W.contents output.new)) }
    ensures unread { result ≡ Err Failure.NotRead → Keeps (W.contents output.old) (W.contents output.new) }
{
    let mut job = [0u8; 53281];
    let n = read_job(input, &mut job)?;
    show(&job[..n], output).map_err(|_| Failure::NotWritten)
}

// The program ends with status 0 whatever comes, so what went wrong is said on standard error; where that cannot be written either, nothing is left
// to say it on. It is said there too how the program is used, where it is given an argument: a site may expect to name a file. (The program's own
// name is argument 0. How long the argument is, or whether it is text, does not matter, so it is given no room.)
fn main(rt: HostRuntime) {
    if !matches!(rt.arg(1, &mut []), Err(FillError::NotPresent)) {
        let _ = eprintln!(rt; "usage: chargelog < JOB");
        return;
    }
    if let Err(failure) = print_job(&mut rt.stdin(), &mut rt.stdout()) {
        let _ = eprintln!(rt; "chargelog: {failure}");
    }
}
