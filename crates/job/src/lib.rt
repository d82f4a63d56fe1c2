// The check of a job's bytes: all rows of the refusal table that are about them alone.
#![tactic(auto)]

mod head;
mod owner;
mod paged;
mod records;
mod table;
mod work;

ghost use Rattle.std.specs.Prelude.{◌≡◌, IfOk};
ghost use Rattle.spec.specs.Check.{job_fault};
ghost use Rattle.spec.specs.Cases.{fault_in};

use crate::paged::Pages;
use header::Header;
use reader::{Headed, Reader};
use spec::{Reason, Refusal};

// The rows in the order of `Check.rows`, then "by lowest place". Of any bytes: no row is looked at before those that it rests on have passed. An
// accepted job comes back as its reader.
pub fn check(job: &[u8]) -> Result<Headed<'_>, Refusal>
    ensures fault { fault_in result ≡ job_fault job.now }
    ensures read { IfOk result (λ r. r.job ≡ job.entry) }
{
    Reason::Short.refuses(head::short(job))?;
    Reason::Version.refuses(head::wrong_version(job))?;
    let h = Header::read(job);
    Reason::Limit.refuses(head::over_limit(job, h))?;
    Reason::Offset.refuses(head::wrong_offset(job, h))?;
    let reader = Reader::new(job, h).headed();
    Reason::Entry.refuses(table::wrong_entry(reader))?;
    table::wrong_page(reader)?;
    let pages = Pages { reader };
    Reason::Owner.refuses(owner::wrong_owner(pages))?;
    Reason::Record.refuses(records::wrong_record(pages))?;
    Reason::Operation.refuses(work::wrong_op(reader))?;
    Reason::Turn.refuses(work::wrong_turn(reader))?;
    Ok(reader)
}
