// Row 8: the records of each page in use.
ghost use Rattle.std.specs.Prelude.{◌≡◌, ◌≤◌, ◌<◌, get_or};
ghost use Rattle.spec.specs.Basics.{first_of};
ghost use Rattle.spec.specs.Bytes.{byte};
ghost use Rattle.spec.specs.File.{no_record};
ghost use Rattle.spec.specs.Decode.{page_of};
ghost use Rattle.spec.specs.Check.{not_above, bad_record, record_fault, wrong_record};
ghost use Rattle.job.specs.Records.{Small};

use crate::paged::Pages;

// The records of a page that rows 12, 6 and 13 have passed.
#[derive(Clone, Copy)]
struct Records<'a> {
    page: &'a [u8],
    ghost small: { Small page.now },
}

impl Records<'_> {
    // The call of record i, from 0. (That there is a record i is asked here and below, since the search in `first_bad` shows it of each number once.)
    fn call_at(self, i: usize) -> u32
        requires { i < byte self.page.now 1 }
        ensures { result ≡ (get_or (page_of self.entry.page.now).records i no_record).call }
    {
        page::rec_at(self.page, i).call
    }

    // "is not above the one before it": record i
    fn not_above(self, i: usize) -> bool
        requires { i < byte self.page.now 1 }
        ensures { result ≡ not_above (page_of self.entry.page.now).records i (get_or (page_of self.entry.page.now).records i no_record) }
    {
        i != 0 && self.call_at(i) <= self.call_at(i - 1)
    }

    // 8 record: "pseudo key does not begin with the pattern", or "a page out of order". Record i
    fn is_bad(self, i: usize) -> bool
        requires { i < byte self.page.now 1 }
        ensures { result ≡ bad_record (page_of self.entry.page.now) i (get_or (page_of self.entry.page.now).records i no_record) }
    {
        key::index(self.call_at(i), page::depth(self.page)) != page::pattern(self.page)
            || self.not_above(i)
    }

    // The first such record, of a page that begins at a place.
    fn first_bad(self, place: usize) -> Option<usize>
        requires { place ≤ 17952 }
        ensures { result ≡ first_of (record_fault place (page_of self.entry.page.now)) 0 (page_of self.entry.page.now).records }
    {
        let i = (0..page::count(self.page)).find(|i| self.is_bad(*i))?;
        Some(place + 4 + 8 * i)
    }
}

pub fn wrong_record(pages: Pages) -> Option<usize>
    ensures { result ≡ wrong_record pages.entry.reader.job.now }
{
    let reader = pages.reader;
    for k in 0..reader.header.used {
        let x = k + 1;
        let records = Records {
            page: reader.page(x),
        };
        if let Some(place) = records.first_bad(reader.header.page_place(x)) {
            return Some(place);
        }
    }
    None
}
