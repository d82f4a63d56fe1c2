// The page functions under plain names, for the tests alone: each takes one page's bytes. What `requires` asks, the tests see to.
#![tactic(auto)]

ghost use Rattle.std.specs.Prelude.{◌≡◌, ℕ, suc, ◌-◌, ◌≤◌, ◌<◌, length, get_or};
ghost use Rattle.spec.specs.Bytes.{byte};
ghost use Rattle.spec.specs.File.{zero_page, look_in, found_of};
ghost use Rattle.spec.specs.Job.{page_size};
ghost use Rattle.spec.specs.Decode.{page_of};
ghost use Rattle.spec.specs.Encode.{page_bytes};
ghost use Rattle.spec.specs.Split.{added, grow, split_count};
ghost use Rattle.spec.specs.Turn.{cleared};
ghost use Rattle.page.specs.Room.{room, Sound};
ghost use Rattle.pieces.specs.Splits.{Splits, Enough};
ghost use Rattle.probe.specs.Numbers.{found_number, rec_for};

use spec::Rec;

// The charge of a call in page x, or 2^32 where it is not there; and 2^33 times the number of the page. (One number, since C has no `Option`.)
#[unsafe(no_mangle)]
pub extern "C" fn probe_find(page: &[u8], x: u16, call: u32) -> u64
    requires { page_size (byte page.now 1) ≤ length page.now }
    ensures { result ≡ found_number (found_of x (look_in (page_of page.now).records call)) }
{
    let found = page::find(page, x, call);
    let charge = found.charge.map_or(4294967296, |v| v as u64);
    charge + 8589934592 * found.page as u64
}

#[unsafe(no_mangle)]
pub extern "C" fn probe_add(page: &mut [u8], call: u32, charge: u32)
    requires { Sound page.old × (byte page.old 1 < room (length page.old)) }
    ensures { page.new ≡ page_bytes (room (length page.old)) (added (page_of page.old) (rec_for call charge)) }
{
    page::add(page, Rec { call, charge });
}

#[unsafe(no_mangle)]
pub extern "C" fn probe_remove(page: &mut [u8], call: u32)
    requires { Sound page.old }
    ensures { page.new ≡ page_bytes (room (length page.old)) (cleared (page_of page.old) call) }
{
    page::remove(page, call);
}

#[unsafe(no_mangle)]
pub extern "C" fn probe_split_count(page: &[u8], call: u32) -> usize
    requires { page_size (byte page.now 1) ≤ length page.now }
    ensures { result ≡ split_count (page_of page.now) call }
{
    pieces::split_count(page, call)
}

#[unsafe(no_mangle)]
pub extern "C" fn probe_write_old(page: &mut [u8], call: u32, charge: u32)
    requires { Sound page.old × Splits (room (length page.old)) (page_of page.old) (rec_for call charge) }
    ensures { (g : ℕ) → Enough g (page_of page.old) (rec_for call charge) → page.new ≡ page_bytes (room (length page.old)) (grow (room (length page.old)) (suc g) (page_of page.old) (rec_for call charge)).old }
{
    let n = pieces::split_count(page, call);
    pieces::write_old(page, n, Rec { call, charge });
}

// New page i, from 1, in a copy of the split page.
#[unsafe(no_mangle)]
pub extern "C" fn probe_write_new(page: &mut [u8], i: usize, call: u32, charge: u32)
    requires { Sound page.old × Splits (room (length page.old)) (page_of page.old) (rec_for call charge) × (1 ≤ i) × (i ≤ split_count (page_of page.old) call) }
    ensures { (g : ℕ) → Enough g (page_of page.old) (rec_for call charge) → page.new ≡ page_bytes (room (length page.old)) (get_or (grow (room (length page.old)) (suc g) (page_of page.old) (rec_for call charge)).news (i - 1) zero_page) }
{
    let n = pieces::split_count(page, call);
    pieces::write_new(page, n, i, Rec { call, charge });
}
