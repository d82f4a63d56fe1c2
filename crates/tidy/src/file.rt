// The accepted file that is tidied, read where it stands.
ghost use Rattle.tidy.specs.Given.{Given};

use header::Header;
use reader::Headed;

// "A charge file is a job with no operations and no turns", and it is accepted.
#[derive(Clone, Copy)]
pub struct ChargeFile<'a> {
    pub reader: Headed<'a>,
    pub ghost given: { Given reader.header reader.job.now },
}

impl<'a> ChargeFile<'a> {
    ghost use Rattle.std.specs.Prelude.{◌≡◌, ◌-◌, ◌^◌, ◌≤◌, ◌<◌};
    ghost use Rattle.laws.specs.Tidy.Entries.{page_on, records_at};
    ghost use Rattle.tidy.specs.Given.{Shows};
    ghost use Rattle.tidy.specs.Charge.{file_in};

    // The page that entry j names. (That j is an entry is asked where it is used, as the reader asks it.)
    pub fn page_on(&self, j: usize) -> &'a [u8]
        requires { j < 2 ^ self.now.reader.header.depth }
        ensures { Shows self.now.reader.header (page_on (file_in self.now) j) result.now }
    {
        self.reader.page(self.reader.entry(j))
    }

    // How many entries a page of depth l has.
    pub fn run(&self, l: usize) -> usize
        requires { l ≤ self.now.reader.header.depth }
        ensures is { result ≡ 2 ^ (self.now.reader.header.depth - l) }
        ensures some { 0 < result }
        ensures few { result ≤ 256 }
    {
        Header::entries_at(self.reader.header.depth - l)
    }

    // How many records lie in the page whose first entry is j.
    pub fn records_at(&self, j: usize) -> usize
        requires { j < 2 ^ self.now.reader.header.depth }
        ensures is { result ≡ records_at (file_in self.now) j }
        ensures few { result ≤ 8 }
    {
        let page = self.page_on(j);
        if page::pattern(page) * self.run(page::depth(page)) == j {
            page::count(page)
        } else {
            0
        }
    }
}
