// The pieces that splits leave of a full page: how many new pages there are, what goes into each, and a page's bytes rewritten as one of them.
#![tactic(auto)]

ghost use Rattle.std.specs.Prelude.{◌≡◌, ℕ, suc, ◌+◌, ◌-◌, ◌≤◌, length, get_or};
ghost use Rattle.spec.specs.Bytes.{byte};
ghost use Rattle.spec.specs.File.{zero_page};
ghost use Rattle.spec.specs.Job.{page_size};
ghost use Rattle.spec.specs.Encode.{page_bytes};
ghost use Rattle.spec.specs.Decode.{page_of};
ghost use Rattle.spec.specs.Split.{grow, least_shared, split_count};
ghost use Rattle.page.specs.Room.{room, Sound};
ghost use Rattle.pieces.specs.Piece.{kept_piece, new_piece, cut};
ghost use Rattle.pieces.specs.Splits.{Splits, Fits, Enough};

use spec::Rec;

// ---- the number of splits

// The least number of leading bits that the call's pseudo key shares with one of the records'.
pub fn least_shared(page: &[u8], call: u32) -> usize
    requires { page_size (byte page.now 1) ≤ length page.now }
    ensures { (result ≡ least_shared (page_of page.now).records call) × (result ≤ 32) }
{
    let key = key::pseudo_key(call);
    let mut least = 32;
    for i in 0..page::count(page) {
        let r = page::rec_at(page, i);
        let bits = key::shared_bits(key::pseudo_key(r.call), key) as usize;
        least = bits.min(least);
    }
    least
}

// "Count n new pages": of a page of this depth, by the least number of shared bits.
pub fn splits(least: usize, depth: usize) -> usize
    requires { least ≤ 32 }
    ensures { result ≡ least + 1 - depth }
{
    (least + 1).saturating_sub(depth)
}

// The same of a page, for an insert of this call.
pub fn split_count(page: &[u8], call: u32) -> usize
    requires { page_size (byte page.now 1) ≤ length page.now }
    ensures { result ≡ split_count (page_of page.now) call }
{
    let least = least_shared(page, call);
    splits(least, page::depth(page))
}

// ---- the pieces

// A page that the splits leave: the first `depth` pseudo-key bits of its calls are `pattern`; `own`: it is the call's own page.
#[derive(Clone, Copy)]
pub struct Piece {
    pub depth: usize,
    pub pattern: usize,
    pub own: bool,
}

// What n splits leave in the page that takes the call at this depth: "the split page keeps bit 0", so the call stays in it up to its first
// bit 1, which moves it into a new page.
pub fn old_piece(call: u32, depth: usize, n: usize) -> Piece
    requires { depth + n ≤ 32 }
    ensures { result ≡ kept_piece n depth call }
{
    let key = key::pseudo_key(call);
    let end = depth + n;
    for d in depth..end {
        if key::bit(key, d) {
            return Piece {
                depth: d + 1,
                pattern: 2 * key::first_bits(key, d),
                own: false,
            };
        }
    }
    Piece {
        depth: end,
        pattern: key::first_bits(key, end),
        own: true,
    }
}

// New page number i, from 1, of n splits: "a new page gets bit 1". (Not one function with `old_piece`, in which it may end: the definitions, `new_piece`
// and `kept_piece`, are two as well.)
pub fn new_piece(call: u32, depth: usize, n: usize, i: usize) -> Piece
    requires { (1 ≤ i) × (i ≤ n) × (depth + n ≤ 32) }
    ensures { result ≡ new_piece (n - i) (depth + (i - 1)) call }
{
    let key = key::pseudo_key(call);
    let d = depth + (i - 1);
    if key::bit(key, d) {
        return old_piece(call, d + 1, n - i);
    }
    Piece {
        depth: d + 1,
        pattern: 2 * key::first_bits(key, d) + 1,
        own: false,
    }
}

// The page becomes one of the pieces of the page that it is.
fn write_piece(page: &mut [u8], q: Piece, r: Rec)
    requires { Sound page.old × Fits (room (length page.old)) (page_of page.old) q }
    ensures { page.new ≡ page_bytes (room (length page.old)) (cut (page_of page.old) r q) }
{
    let Piece {
        depth,
        pattern,
        own,
    } = q;
    let kept = page::keep(page, |a| key::index(a.call, depth) == pattern);
    if own {
        page::put_in(page, kept, r);
        page::close(page, depth, kept + 1, pattern);
    } else {
        page::close(page, depth, kept, pattern);
    }
}

// The split page itself, in place, after n splits. The outcome is the definition's whatever number of splits it allows, if that is enough.
pub fn write_old(page: &mut [u8], n: usize, r: Rec)
    requires { Sound page.old × Splits (room (length page.old)) (page_of page.old) r × (n ≡ split_count (page_of page.old) r.call) }
    ensures { (g : ℕ)
        → Enough g (page_of page.old) r
        → page.new
        ≡ page_bytes (room (length page.old)) (grow (room (length page.old)) (suc g) (page_of page.old) r).old }
{
    let d = page::depth(page);
    write_piece(page, old_piece(r.call, d, n), r);
}

// New page number i, from 1, of n splits, in a copy of the split page. (Not one function with `write_old`: the definitions tell the old page and the
// new ones apart, and what the two share is `write_piece`.)
pub fn write_new(page: &mut [u8], n: usize, i: usize, r: Rec)
    requires { Sound page.old
        × Splits (room (length page.old)) (page_of page.old) r
        × (n ≡ split_count (page_of page.old) r.call)
        × (1 ≤ i)
        × (i ≤ n) }
    ensures { (g : ℕ)
        → Enough g (page_of page.old) r
        → page.new
        ≡ page_bytes (room (length page.old))
        (get_or (grow (room (length page.old)) (suc g) (page_of page.old) r).news (i - 1) zero_page) }
{
    let d = page::depth(page);
    write_piece(page, new_piece(r.call, d, n, i), r);
}
