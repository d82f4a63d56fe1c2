// What `chargelog` prints for a job, in a lent buffer.
#![tactic(auto)]

ghost use Rattle.std.specs.Prelude.{◌≡◌};
ghost use Rattle.spec.specs.Cases.{told};
ghost use Rattle.run.specs.Call.{Settled};
ghost use Rattle.print.specs.Table.{full_table};
ghost use Rattle.print.specs.Printed.{Prints};

use spec::Refusal;
use turn::Row;

// The longest text has fewer bytes than this: a job line, and 256 lines for operations, for the log and for pages.
const TEXT: usize = 85089;

// The lent buffer has not 85,089 bytes.
#[derive(Clone, Copy, Debug, PartialEq, Eq)]
pub struct NoRoom;

// A table of 256 rows, one for each operation that a job may have.
fn table() -> [Row; 256]
    ensures { result ≡ full_table }
{
    let blank = Row::blank();
    [blank; 256]
}

// Runs the job over a table of its own.
fn run_here(job: &[u8], res: &mut [u8], work: &mut [u8]) -> Result<usize, Refusal>
    ensures { Settled job.now res.old res.new full_table full_table work.old work.new (told result) }
{
    let mut rows = table();
    run::run(job, res, &mut rows, work)
}

// Runs the job, writes what is printed to `out`, and answers its length. Where `out` is too short nothing is run and nothing is written.
// (Text and result are each the front of a lent buffer, whose length is the answer: there is no heap.)
pub fn print(job: &[u8], res: &mut [u8], work: &mut [u8], out: &mut [u8]) -> Result<usize, NoRoom>
    ensures { Prints job.now res.old res.new work.old work.new out.old out.new result }
{
    if out.len() < TEXT {
        return Err(NoRoom);
    }
    Ok(match run_here(job, res, work) {
        Ok(length) => report::report(out, job, &res[..length]),
        Err(refusal) => report::refused(out, refusal.reason.number(), refusal.place),
    })
}
