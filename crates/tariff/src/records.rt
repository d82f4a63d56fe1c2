// The records of a log by their bands: the refusals at a record, and its charge.
ghost use Rattle.std.specs.Prelude.{◌≡◌, ℕ, IfOk};
ghost use Rattle.spec.specs.Cases.{fault_in};
ghost use Rattle.spec.specs.Tariff.{bands_of, charge_of, logged_fault, wrong_logged};
ghost use Rattle.switchlog.specs.Read.{logged_in};
ghost use Rattle.tariff.specs.Call.{fault_at};

use crate::bands::Bands;
use spec::{Reason, Refusal};
use switchlog::Logged;

// The largest charge that an operation's four bytes hold. (A limit with a name, no `u32::try_from`: it is the document's, "charge above 2^32 − 1".)
const MOST_CHARGE: usize = u32::MAX as usize;

impl Bands<'_> {
    // "9 for the zero byte, 14 (no such band), 15 (charge above 2^32 − 1)"; and otherwise the record's charge
    pub fn charge(&self, logged: Logged) -> Result<u32, Reason>
        ensures fault { (place : ℕ) → fault_at place result ≡ logged_fault (bands_of self.now.tariff.now) place (logged_in logged) }
        ensures charge { IfOk result (λ x. x ≡ charge_of (bands_of self.now.tariff.now) (logged_in logged)) }
    {
        if logged.spare != 0 {
            return Err(Reason::Operation);
        }
        let band = self.with_code(logged.band).ok_or(Reason::Band)?;
        let charge = band.charge(logged);
        if MOST_CHARGE < charge {
            return Err(Reason::Charge);
        }
        Ok(charge as u32)
    }
}

// "then record by record, at that record"
pub fn wrong_logged(bands: &Bands, log: &[u8]) -> Result<(), Refusal>
    ensures { fault_in result ≡ wrong_logged bands.now.tariff.now log.now }
{
    for (i, bytes) in switchlog::records(log).iter().enumerate() {
        if let Err(reason) = bands.charge(Logged::read(bytes)) {
            return Err(reason.at(Logged::SIZE * i));
        }
    }
    Ok(())
}
