// The directory, written page by page.
ghost use Rattle.std.specs.Prelude.{◌≡◌, ◌+◌, ◌*◌, ◌^◌, ◌≤◌, length, replicate};
ghost use Rattle.spec.specs.Basics.{each};
ghost use Rattle.spec.specs.Bytes.{two};
ghost use Rattle.laws.specs.Tidy.Entries.{spread};
ghost use Rattle.wire.specs.Over.{over};
ghost use Rattle.tidy.specs.Given.{Fills};

use header::Header;

// The n entries from entry j on name page x. (By number, and not a part of the bytes filled: an entry is two bytes, so this is no `fill`.)
fn put_entries(dir: &mut [u8], j: usize, n: usize, x: usize)
    requires { 2 * (j + n) ≤ length dir.old }
    ensures { dir.new ≡ over dir.old (2 * j) (each two (replicate n x)) }
{
    for i in 0..n {
        wire::put_u16(dir, 2 * (j + i), x);
    }
}

// "The pages are then numbered by their first entry, and the directory is written at the wanted depth": pages with these depths, by their first
// entries, each in as many entries as its depth leaves it.
pub fn put_directory(dir: &mut [u8], depth: usize, left: &[u8])
    requires depth { depth ≤ 8 }
    requires fills { Fills depth left.now }
    requires size { length dir.old ≡ 2 * 2 ^ depth }
    ensures { dir.new ≡ each two (spread depth left.now 1) }
{
    let mut j: usize = 0;
    for (k, &l) in left.iter().enumerate() {
        let n = Header::entries_at(depth - l as usize);
        put_entries(dir, j, n, k + 1);
        j += n;
    }
}
