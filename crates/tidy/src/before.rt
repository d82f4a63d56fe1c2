// How many records lie under a pattern: the difference of two numbers, since the entries of a pattern stand together.
ghost use Rattle.tidy.specs.Given.{Counted};
ghost use Rattle.tidy.specs.Charge.{file_in};

use crate::file::ChargeFile;

// How many records lie in the pages that begin before each entry, and in all. (The array is its caller's: one that was handed over by value would be
// copied.)
#[derive(Drop)]
pub struct Before<'a> {
    pub file: ChargeFile<'a>,
    pub counts: &'a [u16; 257],
    pub ghost counted: { Counted (file_in file) counts.now },
}

// The numbers that `Before` keeps, counted into the array that is lent.
pub fn count_records(file: ChargeFile<'_>, counts: &mut [u16; 257])
    ensures { Counted (file_in file.entry) counts.new }
{
    let mut sum: usize = 0;
    counts[0] = 0;
    for j in 0..file.reader.header.entries() {
        sum += file.records_at(j);
        counts[j + 1] = sum as u16;
    }
}

impl Before<'_> {
    ghost use Rattle.std.specs.Prelude.{◌≡◌, ◌^◌, ◌≤◌, ◌<◌};
    ghost use Rattle.laws.specs.Tidy.Entries.{records_under, depth_on};

    // How many records lie under the pattern of l bits that begins entry j.
    fn under(&self, l: usize, j: usize) -> usize
        requires depth { l ≤ self.now.file.reader.header.depth }
        requires entry { j < 2 ^ self.now.file.reader.header.depth }
        ensures { result ≡ records_under (file_in self.now.file) l j }
    {
        let run = self.file.run(l);
        let from = j / run * run;
        let to = from + run;
        (self.counts[to] - self.counts[from]) as usize
    }

    // The depth of the page left of which entry j is: the least that leaves at most c records.
    pub fn depth_on(&self, j: usize) -> usize
        requires { j < 2 ^ self.now.file.reader.header.depth }
        ensures is { result ≡ depth_on (file_in self.now.file) j }
        ensures deep { result ≤ self.now.file.reader.header.depth }
    {
        let g = self.file.reader.header.depth;
        let c = self.file.reader.header.capacity;
        (0..g).find(|&l| self.under(l, j) <= c).unwrap_or(g)
    }
}
