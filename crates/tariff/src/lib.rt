// "The tariff": a tariff and the switch's log are checked, and come to an insert for each record. Nothing is written before all is checked, so there
// are two walks over the log, and no memory is lent but the output.
#![tactic(auto)]

mod bands;
mod inserts;
mod records;

ghost use Rattle.std.specs.Prelude.{◌≡◌, length};
ghost use Rattle.spec.specs.Cases.{told, fault_in};
ghost use Rattle.spec.specs.Tariff.{insert_bytes};
ghost use Rattle.wire.specs.Comes.{Comes};
ghost use Rattle.tariff.specs.Call.{Settled, log_fault, bands_fault};

use band::Band;
use bands::Bands;
use spec::{Reason, Refusal};
use switchlog::Logged;

// "then record by record ..; then 11, under 10 bytes a record"
fn wrong_log(bands: &Bands, log: &[u8], room: usize) -> Result<(), Refusal>
    ensures { fault_in result ≡ log_fault room bands.now.tariff.now log.now }
{
    records::wrong_logged(bands, log)?;
    let needed = 10 * switchlog::records(log).len();
    Reason::Output.refuses((room < needed).then_some(0))
}

// The records by a tariff that is not refused.
fn price_log(bands: &Bands, log: &[u8], out: &mut [u8]) -> Result<usize, Refusal>
    ensures { Comes (log_fault (length out.old) bands.now.tariff.now log.now) (insert_bytes bands.now.tariff.now log.now) out.old out.new (told result) }
{
    wrong_log(bands, log, out.len())?;
    Ok(inserts::write(bands, log, out))
}

// Whole bands and whole records: 16, and what comes behind it.
fn price_whole(tariff: &[u8], log: &[u8], out: &mut [u8]) -> Result<usize, Refusal>
    ensures { Comes (bands_fault (length out.old) tariff.now log.now) (insert_bytes tariff.now log.now) out.old out.new (told result) }
{
    let mut numbers = [None; 256];
    Reason::Tariff.refuses(bands::wrong_band(tariff, &mut numbers))?;
    let bands = Bands {
        tariff,
        numbers: &numbers,
    };
    price_log(&bands, log, out)
}

// THE CALL: any tariff, any log, and any lent output.
pub fn price(tariff: &[u8], log: &[u8], out: &mut [u8]) -> Result<usize, Refusal>
    ensures { Settled tariff.now log.now out.old out.new (told result) }
{
    Reason::Short.refuses(switchlog::not_whole::<{ Band::SIZE }>(tariff))?;
    Reason::Short.refuses(switchlog::not_whole::<{ Logged::SIZE }>(log))?;
    price_whole(tariff, log, out)
}
