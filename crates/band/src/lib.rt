// What a call costs by its band: the class of its hour, the started units, the charge.
#![tactic(auto)]

ghost use Rattle.std.specs.Prelude.{◌≡◌, ◌≤◌, ◌<◌, map};
ghost use Rattle.spec.specs.Tariff.{band_of, bands_of, min_unit, hour_class, price_at, started_units, charge_in};
ghost use Rattle.switchlog.specs.Read.{logged_in};
ghost use Rattle.band.specs.Read.{band_in, class_number};
ghost use Rattle.band.specs.Largest.{max_long};

use switchlog::Logged;

// A band of a tariff: "code (1), free seconds (1), unit in seconds (2, from 1 to 3,600), connection fee (4), and price for each started unit in the
// cheap, standard and dear class (4 each)".
#[derive(Clone, Copy)]
pub struct Band {
    pub code: u8,
    pub free: u8,
    pub unit: u16,
    pub fee: u32,
    pub prices: [u32; 3],
}

// The hours are of three classes, and a band has a price for each.
#[derive(Clone, Copy)]
enum Class {
    Cheap,
    Standard,
    Dear,
}

use Class::{Cheap, Dear, Standard};

// "The class of each of the 24 hours is fixed: 0 to 6 and 20 to 23 cheap, 7, 18 and 19 standard, 8 to 17 dear"
const CLASSES: &[Class; 24] = &[
    Cheap, Cheap, Cheap, Cheap, Cheap, Cheap, Cheap, Standard, Dear, Dear, Dear, Dear, Dear, Dear,
    Dear, Dear, Dear, Dear, Standard, Standard, Cheap, Cheap, Cheap, Cheap,
];

impl Class {
    fn of(hour: usize) -> Class
        requires { hour < 24 }
        ensures { class_number result ≡ hour_class hour }
    {
        CLASSES[hour]
    }
}

impl Band {
    // "bands of 20 bytes"
    pub const SIZE: usize = 20;

    #[tactic(auto, unfolding(spec::specs::Tariff::band_of, spec::specs::Bytes::byte))]
    pub fn read(bytes: &[u8; Band::SIZE]) -> Band
        ensures { band_in result ≡ band_of bytes.now }
    {
        Band {
            code: bytes[0],
            free: bytes[1],
            unit: wire::u16_at(bytes, 2) as u16,
            fee: wire::u32_at(bytes, 4),
            prices: [
                wire::u32_at(bytes, 8),
                wire::u32_at(bytes, 12),
                wire::u32_at(bytes, 16),
            ],
        }
    }

    // "The start's hour counts: start over 3,600, rounded down, modulo 24"
    #[tactic(auto, unfolding(spec::specs::Tariff::price_at, spec::specs::Tariff::hour_of))]
    fn price(self, start: u32) -> u32
        ensures { result ≡ price_at (band_in self) start }
    {
        self.prices[Class::of(start as usize / 3600 % 24) as usize]
    }

    // "the started units beyond the free seconds". (Within them nothing is divided: that would take longer than all the rest.)
    fn units(self, talked: u32) -> usize
        requires { min_unit ≤ self.unit }
        ensures { (result ≡ started_units (band_in self) talked) × (result ≤ max_long) }
    {
        let free = self.free as u32;
        if talked <= free {
            return 0;
        }
        let beyond = (talked - free) as usize;
        let unit = self.unit as usize;
        (beyond + (unit - 1)) / unit
    }

    // "No seconds talked costs nothing. Otherwise the charge is .. the fee, plus price times the started units": at most 2^64 − 2^32
    pub fn charge(self, logged: Logged) -> usize
        requires { min_unit ≤ self.unit }
        ensures { result ≡ charge_in (band_in self) (logged_in logged) }
    {
        if logged.talked == 0 {
            return 0;
        }
        self.fee as usize + self.price(logged.start) as usize * self.units(logged.talked)
    }
}

// The bytes of each band. A tariff that is not whole bands has more behind the last.
pub fn bands(tariff: &[u8]) -> &[[u8; Band::SIZE]]
    ensures { map band_of result.now ≡ bands_of tariff.now }
{
    tariff.as_chunks().0
}
