// The library for C and Rust programs: include/chargefile.h says how to call it.
#![tactic(auto)]

ghost use Rattle.std.specs.Prelude.{◌≡◌};
ghost use Rattle.spec.specs.Cases.{told};
ghost use Rattle.chargefile.specs.Handed.{handed};
ghost use Rattle.chargefile.specs.Called.{CheckCalled, Called, DealCalled, TidyCalled, PriceCalled};

use spec::Refusal;
use turn::Row;

// What a call comes to. refusal 0: done, and length is the output's; else its number, with place, and length 0.
// It is given by value, so that a refused call has written to no lent memory whatever. (Numbers, and no `Result`: C reads it.)
#[repr(C)]
#[derive(Clone, Copy)]
pub struct CallOutcome {
    pub refusal: u64,
    pub place: u64,
    pub length: u64,
}

// The answer of any call, in the numbers that its caller gets.
impl From<Result<usize, Refusal>> for CallOutcome {
    ghost from_gives = { λ answer outcome. outcome ≡ handed (told answer) };

    fn from(answer: Result<usize, Refusal>) -> CallOutcome {
        match answer {
            Ok(length) => CallOutcome {
                refusal: 0,
                place: 0,
                length: length as u64,
            },
            Err(refusal) => CallOutcome {
                refusal: refusal.reason.number() as u64,
                place: refusal.place as u64,
                length: 0,
            },
        }
    }
}

// The check of a job's bytes: all rows of the refusal table that are about them alone. It writes no output, so length is 0.
#[unsafe(no_mangle)]
pub extern "C" fn chargefile_check(job: &[u8]) -> CallOutcome
    ensures { CheckCalled job.now result }
{
    CallOutcome::from(job::check(job).and(Ok(0)))
}

// A job checked, run, and its result written. Any lengths may be lent: too small a result buffer, too few rows or too little memory is refused 11.
#[unsafe(no_mangle)]
pub extern "C" fn chargefile_run(
    job: &[u8],
    res: &mut [u8],
    rows: &mut [Row],
    memory: &mut [u8],
) -> CallOutcome
    ensures { Called job.now res.old res.new rows.old rows.new memory.old memory.new result }
{
    CallOutcome::from(run::run(job, res, rows, memory))
}

// A job with operations and no turns, written again with a turn list that finishes them all. Any lengths may be lent, as for a run.
#[unsafe(no_mangle)]
pub extern "C" fn chargefile_deal(
    job: &[u8],
    out: &mut [u8],
    rows: &mut [Row],
    memory: &mut [u8],
) -> CallOutcome
    ensures { DealCalled job.now out.old out.new rows.old rows.new memory.old memory.new result }
{
    CallOutcome::from(deal::deal(job, out, rows, memory))
}

// A charge file tidied between two runs, with a directory of the wanted depth. Any depth may be asked for, and any length lent: what cannot be is
// refused 19 or 11.
#[unsafe(no_mangle)]
pub extern "C" fn chargefile_tidy(file: &[u8], depth: u64, out: &mut [u8]) -> CallOutcome
    ensures { TidyCalled file.now depth out.old out.new result }
{
    CallOutcome::from(tidy::tidy(file, depth as usize, out))
}

// The calls of the switch's log priced by a tariff: an insert for each record. Any bytes may be handed over as either, and any length lent: what cannot
// be is refused.
#[unsafe(no_mangle)]
pub extern "C" fn chargefile_price(tariff: &[u8], log: &[u8], out: &mut [u8]) -> CallOutcome
    ensures { PriceCalled tariff.now log.now out.old out.new result }
{
    CallOutcome::from(tariff::price(tariff, log, out))
}
