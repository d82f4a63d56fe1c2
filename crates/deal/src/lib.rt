// "Turns dealt for the site": a job with operations and no turns is checked, its turns are dealt on the lent table and working memory, and the
// same job is written with the list.
#![tactic(auto)]

ghost use Rattle.std.specs.Prelude.{◌≡◌, ◌+◌, ◌*◌, ◌≤◌, length, IfOk};
ghost use Rattle.spec.specs.Bytes.{two, four};
ghost use Rattle.spec.specs.Job.{header_size, turn_count_at, total_at, turn_size};
ghost use Rattle.spec.specs.Cases.{told, fault_in};
ghost use Rattle.spec.specs.Deal.{max_dealt, deal_fault};
ghost use Rattle.laws.specs.Codec.Longest.{longest};
ghost use Rattle.wire.specs.Over.{over};
ghost use Rattle.run.specs.Call.{lengths};
ghost use Rattle.deal.specs.Call.{Accepted, Dealt, Settled};

use reader::Headed;
use run::Lent;
use spec::{Reason, Refusal};
use turn::Row;

// "the job's length and 20,476 bytes more": room for 10,238 turns
const MORE: usize = 20476;

// "21 (turns present, at their count) after the job's own refusals, then 11". A job for which turns are dealt comes back as its reader.
// (Not one function with that of a run: row 21 stands between its two rows, and they ask for different room.)
fn check_all(job: &[u8], lent: Lent) -> Result<Headed<'_>, Refusal>
    ensures fault { fault_in result ≡ deal_fault (lengths lent) job.now }
    ensures read { IfOk result (λ r. r.job ≡ job.entry) }
{
    let reader = job::check(job)?;
    let h = reader.header;
    if h.turns != 0 {
        return Err(Reason::Dealt.at(10));
    }
    Reason::Output.refuses(run::small_for(h, job.len() + MORE, lent))?;
    Ok(reader)
}

// The list of n turns stands in the output already: the job is written before it, with their count and the total, which is told.
fn write_job(job: &[u8], n: usize, out: &mut [u8]) -> usize
    requires { (header_size ≤ length job.now) × (length job.now ≤ longest) × (n ≤ max_dealt) × (length job.now + turn_size * n ≤ length out.old) }
    ensures { (result ≡ length job.now + turn_size * n) × (out.new ≡ over (over (over out.old 0 job.now) turn_count_at (two n)) total_at (four result)) }
{
    let total = job.len() + 2 * n;
    wire::copy(job, 0, out, 0, job.len());
    wire::put_u16(out, 10, n);
    wire::put_u32(out, 28, total as u32);
    total
}

// From the file as it came in, turns are dealt until all have finished; then the job is written, and what was lent is cleared.
fn deal_accepted(reader: Headed, out: &mut [u8], rows: &mut [Row], work: &mut [u8]) -> usize
    requires { Accepted reader.job.now out.old rows.old work.old }
    ensures { Dealt reader.entry.job.now out.old out.new rows.old rows.new work.old work.new result }
{
    run::start(reader, rows, work);
    let n = rounds::rounds(rows, reader.job, reader.header, out, work);
    run::clear(rows, work);
    write_job(reader.job, n, out)
}

// THE CALL: any bytes, and any lent output buffer, table and working memory. (Not one function with `run::run`: that would
// take the check, the work and their contracts as arguments.)
pub fn deal(job: &[u8], out: &mut [u8], rows: &mut [Row], work: &mut [u8]) -> Result<usize, Refusal>
    ensures { Settled job.now out.old out.new rows.old rows.new work.old work.new (told result) }
{
    let reader = check_all(job, Lent::of(out, rows, work))?;
    Ok(deal_accepted(reader, out, rows, work))
}
