// Rows 5, and 12, 6 and 13: directory entries, and pages, each by itself.
ghost use Rattle.std.specs.Prelude.{◌≡◌, [], ◌-◌, ◌≤◌, length, get_or};
ghost use Rattle.spec.specs.Job.{page_size};
ghost use Rattle.spec.specs.Decode.{header_of, page_parts};
ghost use Rattle.spec.specs.Check.{first_row, wrong_entry, wrong_pattern, not_zero, used_rows, page_fault, wrong_page};
ghost use Rattle.spec.specs.Cases.{fault_in};
ghost use Rattle.laws.specs.Codec.Zeros.{zeros};
ghost use Rattle.laws.specs.Codec.Rows.{Limits};
ghost use Rattle.header.specs.Counts.{counts_of};

use crate::head;
use header::Header;
use reader::Headed;
use spec::{Reason, Refusal};

// 5 entry: "0 or above U"
pub fn wrong_entry(reader: Headed) -> Option<usize>
    ensures { result ≡ wrong_entry reader.entry.job.now }
{
    let used = reader.header.used;
    let j = (0..reader.header.entries()).find(|j| head::is_outside(1, used, reader.entry(*j)))?;
    Some(Header::SIZE + 2 * j)
}

// Every byte is zero: so is their sum. (A sum has no way out before its end, so several bytes are added at a time.)
fn is_zero(bytes: &[u8]) -> bool
    requires { length bytes.now ≤ 68 }
    ensures { result ≡ zeros bytes.now }
{
    let sum: usize = bytes.iter().map(|b| *b as usize).sum();
    sum == 0
}

// 13 zero: "at the first byte that should be zero and is not", of bytes of a page, which begin at a place. It is looked for only where the sum of
// these bytes is not zero.
fn not_zero(bytes: &[u8], place: usize) -> Option<usize>
    requires { (length bytes.now ≤ 68) × (place ≤ 18020) }
    ensures { result ≡ not_zero place bytes.now }
{
    if is_zero(bytes) {
        return None;
    }
    let i = bytes.iter().position(|b| *b != 0)?;
    Some(place + i)
}

// (That a place is one where a page can begin is asked by each function that adds to it: a page's bytes do not tell it.)

// 12 pattern: "A depth above g or a pattern too large", "at that field", of a page that begins at a place.
fn wrong_pattern(h: Header, page: &[u8], place: usize) -> Option<usize>
    requires { Limits (counts_of h) × (length page.now ≡ page_size h.capacity) × (place ≤ 17952) }
    ensures { result ≡ wrong_pattern h.depth place page.now }
{
    let depth = page::depth(page);
    if h.depth < depth {
        return Some(place);
    }
    if (1 << depth) <= page::pattern(page) {
        return Some(place + 2);
    }
    None
}

// "12 .., then 6, then 13": the rows of a page in use, which begins at a place.
fn used_page_fault(h: Header, page: &[u8], place: usize) -> Result<(), Refusal>
    requires { Limits (counts_of h) × (length page.now ≡ page_size h.capacity) × (place ≤ 17952) }
    ensures { fault_in result ≡ first_row (used_rows (counts_of h) place) page.now }
{
    Reason::Pattern.refuses(wrong_pattern(h, page, place))?;
    let count = page::count(page);
    Reason::Page.refuses((h.capacity < count).then_some(place))?;
    let unused = 4 + 8 * count;
    Reason::Zero.refuses(not_zero(&page[unused..], place + unused))
}

// "on an unused page 13 alone": the rows of page x.
fn page_fault(reader: Headed, x: usize) -> Result<(), Refusal>
    requires { (1 ≤ x) × (x ≤ reader.header.pages) }
    ensures { fault_in result ≡ page_fault (header_of reader.entry.job.now) x (get_or (page_parts (header_of reader.entry.job.now) reader.entry.job.now) (x - 1) []) }
{
    let page = reader.page(x);
    let place = reader.header.page_place(x);
    if x <= reader.header.used {
        used_page_fault(reader.header, page, place)
    } else {
        Reason::Zero.refuses(not_zero(page, place))
    }
}

// "within each page before the next page is looked at"
pub fn wrong_page(reader: Headed) -> Result<(), Refusal>
    ensures { fault_in result ≡ wrong_page reader.entry.job.now }
{
    for k in 0..reader.header.pages {
        page_fault(reader, k + 1)?;
    }
    Ok(())
}
