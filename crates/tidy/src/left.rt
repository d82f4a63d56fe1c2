// Which pages are left. They are the highest patterns under which at most c records lie, so it is enough to know how many records lie under a
// pattern.
ghost use Rattle.std.specs.Prelude.{◌≡◌, ◌≤◌, take};
ghost use Rattle.laws.specs.Tidy.Entries.{depths_left};
ghost use Rattle.tidy.specs.Charge.{file_in};

use crate::before::{self, Before};
use crate::file::ChargeFile;

// The pages left of a file: their depths, by their first entries.
#[derive(Drop)]
pub struct Left<'a> {
    pub file: ChargeFile<'a>,
    pub depths: &'a [u8],
    pub ghost found: { depths.now ≡ depths_left (file_in file) 0 },
}

// The depths that `Left` keeps, found into the front of a buffer for the most pages that a file can have; how many they are. (The buffer is its
// caller's: one that was handed over by value would be copied.)
pub fn find(file: ChargeFile<'_>, buffer: &mut [u8; 256]) -> usize
    ensures found { take result buffer.new ≡ depths_left (file_in file.entry) 0 }
    ensures few { result ≤ 256 }
{
    let mut counts = [0u16; 257];
    before::count_records(file, &mut counts);
    let before = Before {
        file,
        counts: &counts,
    };
    let mut count: usize = 0;
    let mut j: usize = 0;
    // A page's depth says which entry comes next, so this is no count.
    while j < file.reader.header.entries() {
        let l = before.depth_on(j);
        buffer[count] = l as u8;
        count += 1;
        j += file.run(l);
    }
    count
}

impl Left<'_> {
    pub fn depths(&self) -> &[u8]
        ensures { result.now ≡ depths_left (file_in self.now.file) 0 }
    {
        self.depths
    }
}
