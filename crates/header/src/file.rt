// "A charge file is a job with no operations and no turns": its length, and its header, written.
ghost use Rattle.std.specs.Prelude.{◌≡◌, ◌+◌, ◌*◌, ◌^◌, ◌≤◌, length};
ghost use Rattle.spec.specs.Job.{page_size};
ghost use Rattle.spec.specs.Encode.{header_bytes};
ghost use Rattle.wire.specs.Over.{over};
ghost use Rattle.header.specs.File.{file_header, file_size};

use crate::Header;

// (The limits of depth, capacity and page count are asked by each function: a tidied file has a depth that no header has yet, so no type has the three.)
impl Header {
    // the number of entries of a directory
    pub fn entries_at(depth: usize) -> usize
        requires { depth ≤ 8 }
        ensures { (result ≡ 2 ^ depth) × (result ≤ 256) }
    {
        1 << depth
    }

    // where the page table of a directory of this depth begins
    pub(crate) fn table_at(depth: usize) -> usize
        requires { depth ≤ 8 }
        ensures { (result ≡ 32 + 2 * 2 ^ depth) × (result ≤ 544) }
    {
        Header::SIZE + 2 * Header::entries_at(depth)
    }

    // the length of a page of this capacity
    pub(crate) fn page_size_at(capacity: usize) -> usize
        requires { capacity ≤ 8 }
        ensures { (result ≡ page_size capacity) × (result ≤ 68) }
    {
        4 + 8 * capacity
    }

    // the length of a charge file
    pub fn file_length(depth: usize, capacity: usize, pages: usize) -> usize
        requires { (depth ≤ 8) × (capacity ≤ 8) × (pages ≤ 256) }
        ensures { (result ≡ file_size depth capacity pages) × (result ≤ 17952) }
    {
        Header::table_at(depth) + Header::page_size_at(capacity) * pages
    }

    // The header of a charge file. Depth and capacity have a byte each.
    // (Its four numbers come one by one: a `Header` that wrote itself would be made of the same four by each caller, and of two noughts.
    // And `at` is no length, but where the format has the file.)
    pub fn put_file(
        out: &mut [u8],
        at: usize,
        depth: usize,
        capacity: usize,
        pages: usize,
        used: usize,
    )
        requires { (at + 32 ≤ length out.old) × (depth ≤ 8) × (capacity ≤ 8) × (pages ≤ 256) }
        ensures { out.new ≡ over out.old at (header_bytes (file_header depth capacity pages used)) }
    {
        let table = Header::table_at(depth);
        let end = Header::file_length(depth, capacity, pages);
        wire::put_four_u16(
            out,
            at,
            Header::VERSION,
            depth + 256 * capacity,
            pages,
            used,
        );
        wire::clear(out, at + 8, 4);
        wire::put_four_u32(out, at + 12, Header::SIZE, table, end, end);
        wire::put_u32(out, at + 28, end as u32);
    }
}
