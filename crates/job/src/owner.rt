// Row 7, in time linear in the directory. Page x, of depth l and pattern p, begins the entries p * 2^(g-l) up to (p+1) * 2^(g-l), so the
// lowest fault is the least of: the first entry whose own page does not begin it; and, for each page in use, the first entry that it begins
// and that names another page. A walk of the second kind stops at its first such entry, and passes entries that name its page alone: all
// walks together pass each entry at most twice, and stop once for each page.
ghost use Rattle.std.specs.Prelude.{◌≡◌, ◌^◌, ◌≤◌, ◌<◌};
ghost use Rattle.spec.specs.Check.{wrong_owner};
ghost use Rattle.job.specs.Owner.{stray, foreign, other, LowestOf, lower};

use crate::paged::Pages;
use header::Header;
use reader::Headed;

// The page that entry j names does not begin it. (Entry j, and page x below, are asked to be there as the reader asks it.)
fn is_stray(pages: Pages, j: usize) -> bool
    requires { j < 2 ^ pages.reader.header.depth }
    ensures { result ≡ stray pages.entry.reader.job.now j }
{
    let page = pages.reader.page(pages.reader.entry(j));
    let shift = pages.reader.header.depth - page::depth(page);
    (j >> shift) != page::pattern(page)
}

// The first entry whose own page does not begin it.
fn first_stray(pages: Pages) -> Option<usize>
    ensures { LowestOf (stray pages.entry.reader.job.now) 0 (2 ^ pages.entry.reader.header.depth) result }
{
    (0..pages.reader.header.entries()).find(|j| is_stray(pages, *j))
}

// The first of the entries from .. to that does not name page x. (Two numbers and no range: the contract speaks of either end.)
fn first_other(reader: Headed, x: usize, from: usize, to: usize) -> Option<usize>
    requires { (from ≤ to) × (to ≤ 2 ^ reader.header.depth) }
    ensures { LowestOf (other reader.entry.job.now x) from to result }
{
    (from..to).find(|j| x != reader.entry(*j))
}

// The first entry that page x begins and that names another page.
fn first_foreign(pages: Pages, x: usize) -> Option<usize>
    requires { (1 ≤ x) × (x ≤ pages.reader.header.used) }
    ensures { LowestOf (foreign pages.entry.reader.job.now x) 0 (2 ^ pages.entry.reader.header.depth) result }
{
    let page = pages.reader.page(x);
    let run: usize = 1 << (pages.reader.header.depth - page::depth(page));
    let from = page::pattern(page) * run;
    first_other(pages.reader, x, from, from + run)
}

// The lower of two entries, where there are two.
#[tactic(auto, unfolding(crate::specs::Owner::lower))]
fn lower(a: Option<usize>, b: Option<usize>) -> Option<usize>
    ensures { result ≡ lower a b }
{
    match (a, b) {
        (Some(a), Some(b)) => Some(a.min(b)),
        _ => a.or(b),
    }
}

// 7 owner: "for entry j, its page's pattern does not begin j, or another page's in use does"
pub fn wrong_owner(pages: Pages) -> Option<usize>
    ensures { result ≡ wrong_owner pages.entry.reader.job.now }
{
    let mut first = first_stray(pages);
    for k in 0..pages.reader.header.used {
        first = lower(first, first_foreign(pages, k + 1));
    }
    Some(Header::SIZE + 2 * first?)
}
