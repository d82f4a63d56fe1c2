// The output: "an insert for each record, in log order".
ghost use Rattle.std.specs.Prelude.{◌≡◌, ◌+◌, ◌*◌, ◌≤◌, length, None};
ghost use Rattle.spec.specs.Job.{op_size};
ghost use Rattle.spec.specs.Encode.{op_bytes};
ghost use Rattle.spec.specs.SwitchLog.{switch_log};
ghost use Rattle.spec.specs.Tariff.{insert_bytes, wrong_logged};
ghost use Rattle.wire.specs.Over.{over};
ghost use Rattle.tariff.specs.Call.{insert_of};

use crate::bands::Bands;
use switchlog::Logged;

// "kind 2 .., a zero byte, call number (4), charge (4)". (`at` is no length, but where the output has this insert.)
fn put_insert(out: &mut [u8], at: usize, call: u32, charge: u32)
    requires { at + op_size ≤ length out.old }
    ensures { out.new ≡ over out.old at (op_bytes (insert_of call charge)) }
{
    wire::put_u16(out, at, 2);
    wire::put_u32(out, at + 2, call);
    wire::put_u32(out, at + 6, charge);
}

// All of it; and its length.
pub fn write(bands: &Bands, log: &[u8], out: &mut [u8]) -> usize
    requires { (wrong_logged bands.now.tariff.now log.now ≡ None) × (op_size * length (switch_log log.now) ≤ length out.old) }
    ensures { (result ≡ length (insert_bytes bands.now.tariff.now log.now)) × (out.new ≡ over out.old 0 (insert_bytes bands.now.tariff.now log.now)) }
{
    let records = switchlog::records(log);
    for (i, bytes) in records.iter().enumerate() {
        let logged = Logged::read(bytes);
        put_insert(out, 10 * i, logged.call, bands.charge(logged).unwrap());
    }
    10 * records.len()
}
