// The pages left, each written once, straight into the output. One of the file's own is copied; where pages are joined, the records come from them
// one after another, and each is put in its place among those that are there.
ghost use Rattle.std.specs.Prelude.{◌≡◌, [], ◌++◌, ◌+◌, ◌-◌, ◌*◌, ◌^◌, ◌≤◌, length, replicate};
ghost use Rattle.spec.specs.Basics.{each};
ghost use Rattle.spec.specs.Bytes.{byte};
ghost use Rattle.spec.specs.Job.{page_size};
ghost use Rattle.spec.specs.Encode.{record_bytes, page_bytes};
ghost use Rattle.spec.specs.Decode.{page_of};
ghost use Rattle.spec.specs.Tidy.{merged, pages_left};
ghost use Rattle.laws.specs.Tidy.Entries.{gathered, page_from};
ghost use Rattle.wire.specs.Over.{over};
ghost use Rattle.page.specs.View.{records_from};
ghost use Rattle.tidy.specs.Charge.{file_in, Asked};

use crate::file::ChargeFile;
use crate::left::Left;

// The records of a page put among the first n of another; how many there are then. (Their number goes beside them: `page::close` writes it into
// the head when all are there.)
fn put_all(page: &[u8], out: &mut [u8], n: usize) -> usize
    requires page { page_size (byte page.now 1) ≤ length page.now }
    requires room { page_size (n + byte page.now 1) ≤ length out.old }
    ensures count { result ≡ n + length (page_of page.now).records }
    ensures records { out.new ≡ over out.old 4 (each record_bytes (merged (records_from out.old 0 n) (page_of page.now).records)) }
{
    let m = page::count(page);
    for i in 0..m {
        page::put_in(out, n + i, page::rec_at(page, i));
    }
    n + m
}

impl ChargeFile<'_> {
    // The records of the pages from entry `from` up to entry `to`; how many they are. (Two numbers and no range: the walk goes on by more than one.)
    fn gather(&self, from: usize, to: usize, out: &mut [u8]) -> usize
        requires end { to ≤ 2 ^ self.now.reader.header.depth }
        requires size { length out.old ≡ page_size self.now.reader.header.capacity }
        requires few { length (gathered (file_in self.now) from to) ≤ self.now.reader.header.capacity }
        ensures count { result ≡ length (gathered (file_in self.now) from to) }
        ensures records { out.new ≡ over out.old 4 (each record_bytes (merged [] (gathered (file_in self.now) from to))) }
    {
        let mut n: usize = 0;
        let mut j = from;
        // A page's depth says which entry comes next, so this is no count.
        while j < to {
            let page = self.page_on(j);
            n = put_all(page, out, n);
            j += self.run(page::depth(page));
        }
        n
    }

    // The page of depth l whose first entry is j, from the records of its entries' pages.
    fn put_joined(&self, j: usize, l: usize, out: &mut [u8])
        requires { Asked self.now j l (length out.old) }
        ensures { out.new ≡ page_bytes self.now.reader.header.capacity (page_from (file_in self.now) j l) }
    {
        let run = self.run(l);
        let n = self.gather(j, j + run, out);
        page::close(out, l, n, j / run);
    }

    // The page of depth l whose first entry is j: the file's own, or joined.
    fn put_page(&self, j: usize, l: usize, out: &mut [u8])
        requires { Asked self.now j l (length out.old) }
        ensures { out.new ≡ page_bytes self.now.reader.header.capacity (page_from (file_in self.now) j l) }
    {
        let page = self.page_on(j);
        if page::depth(page) == l {
            wire::copy(page, 0, out, 0, out.len());
        } else {
            self.put_joined(j, l, out);
        }
    }
}

impl Left<'_> {
    // All pages left. "pages no longer in use are zero"
    pub fn put_pages(&self, table: &mut [u8])
        requires { length table.old ≡ page_size self.now.file.reader.header.capacity * self.now.file.reader.header.pages }
        ensures { table.new ≡ each (page_bytes self.now.file.reader.header.capacity) (pages_left (file_in self.now.file)) ++ replicate (page_size self.now.file.reader.header.capacity * (self.now.file.reader.header.pages - length (pages_left (file_in self.now.file)))) 0 }
    {
        let size = self.file.reader.header.page_size();
        let left = self.depths();
        let mut j: usize = 0;
        for (k, &l) in left.iter().enumerate() {
            let l = l as usize;
            let at = size * k;
            let end = at + size;
            self.file.put_page(j, l, &mut table[at..end]);
            j += self.file.run(l);
        }
        table[size * left.len()..].fill(0);
    }
}
