// The switch's log: records of 16 bytes, read where they stand.
#![tactic(auto)]

ghost use Rattle.std.specs.Prelude.{◌≡◌, ◌<◌, map};
ghost use Rattle.spec.specs.SwitchLog.{logged_of, switch_log, not_whole};
ghost use Rattle.switchlog.specs.Read.{logged_in};

// A record of the log: "call number (4), extension (2), band (1), zero (1), start in seconds from the month's beginning (4), seconds talked (4)".
#[derive(Clone, Copy)]
pub struct Logged {
    pub call: u32,
    pub extension: u16,
    pub band: u8,
    pub spare: u8,
    pub start: u32,
    pub talked: u32,
}

impl Logged {
    // "A log record is 16 bytes"
    pub const SIZE: usize = 16;

    #[tactic(auto, unfolding(spec::specs::SwitchLog::logged_of, spec::specs::Bytes::byte))]
    pub fn read(bytes: &[u8; Logged::SIZE]) -> Logged
        ensures { logged_in result ≡ logged_of bytes.now }
    {
        Logged {
            call: wire::u32_at(bytes, 0),
            extension: wire::u16_at(bytes, 4) as u16,
            band: bytes[6],
            spare: bytes[7],
            start: wire::u32_at(bytes, 8),
            talked: wire::u32_at(bytes, 12),
        }
    }
}

// The bytes of each record. A log that is not whole records has more behind the last.
pub fn records(log: &[u8]) -> &[[u8; Logged::SIZE]]
    ensures { map logged_of result.now ≡ switch_log log.now }
{
    log.as_chunks().0
}

// 1: "for a log that is not whole records, at its length"; for a tariff that is not whole bands likewise
pub fn not_whole<const SIZE: usize>(bytes: &[u8]) -> Option<usize>
    requires { 0 < SIZE }
    ensures { result ≡ not_whole SIZE bytes.now }
{
    (bytes.len() % SIZE != 0).then_some(bytes.len())
}
