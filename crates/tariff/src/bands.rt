// The bands of a tariff, refusal 16, and an index of their codes: for each code the number of its band, so that a record's band is found at once.
ghost use Rattle.std.specs.Prelude.{◌≡◌, [], ◌≤◌, ◌||◌, length, get_or, None, IfSome};
ghost use Rattle.std.specs.Option.{is_some, option_map};
ghost use Rattle.spec.specs.Basics.{first_of};
ghost use Rattle.spec.specs.Check.{outside};
ghost use Rattle.spec.specs.Tariff.{bands_of, max_bands, min_unit, max_unit, band_fault, wrong_band, band_for};
ghost use Rattle.band.specs.Read.{band_in};
ghost use Rattle.tariff.specs.Index.{Indexed};
ghost use Rattle.std.proofs.Props.{props};

use band::Band;

// "at most 32 bands"
const MOST_BANDS: usize = 32;

// A tariff that is not refused 16, and the index of its codes.
#[derive(Clone, Copy)]
pub struct Bands<'a> {
    pub tariff: &'a [u8],
    pub numbers: &'a [Option<u8>; 256],
    ghost right: { wrong_band tariff.now ≡ None } by { Prim.hlevel props },
    ghost index: { Indexed (bands_of tariff.now) numbers.now } by { Prim.hlevel props },
}

impl Bands<'_> {
    // The band with this code.
    pub fn with_code(&self, code: u8) -> Option<Band>
        ensures band { option_map band_in result ≡ band_for (bands_of self.now.tariff.now) code }
        ensures unit { IfSome result (λ b. min_unit ≤ b.unit) }
    {
        let k = self.numbers[code as usize]?;
        Some(Band::read(&band::bands(self.tariff)[k as usize]))
    }
}

// "an earlier band's code or a bad unit": with an index of the bands before it
fn is_bad(band: Band, numbers: &[Option<u8>; 256]) -> bool
    ensures { result ≡ (is_some (get_or numbers.now band.code None) || outside min_unit max_unit band.unit) }
{
    numbers[band.code as usize].is_some() || !(1..=3600).contains(&band.unit)
}

// The first of at most 32 bands that is bad. Where none is, all codes are then in the index, which had none.
fn first_bad(tariff: &[u8], numbers: &mut [Option<u8>; 256]) -> Option<usize>
    requires { (length (bands_of tariff.now) ≤ max_bands) × Indexed [] numbers.old }
    ensures { (result ≡ first_of (band_fault (bands_of tariff.now)) 0 (bands_of tariff.now)) × (first_of (band_fault (bands_of tariff.now)) 0 (bands_of tariff.now) ≡ None → Indexed (bands_of tariff.now) numbers.new) }
{
    for (i, bytes) in band::bands(tariff).iter().enumerate() {
        let band = Band::read(bytes);
        if is_bad(band, numbers) {
            return Some(Band::SIZE * i);
        }
        numbers[band.code as usize] = Some(i as u8);
    }
    None
}

// "16 (more than 32 bands, at the length; else the first band with an earlier band's code or a bad unit)"
pub fn wrong_band(tariff: &[u8], numbers: &mut [Option<u8>; 256]) -> Option<usize>
    requires { Indexed [] numbers.old }
    ensures { (result ≡ wrong_band tariff.now) × (wrong_band tariff.now ≡ None → Indexed (bands_of tariff.now) numbers.new) }
{
    if MOST_BANDS < band::bands(tariff).len() {
        return Some(tariff.len());
    }
    first_bad(tariff, numbers)
}
