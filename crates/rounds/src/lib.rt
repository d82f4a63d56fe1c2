// "The list is dealt in rounds, by rising operation number": on the lent table and the working memory of a run, each turn being written into the
// output behind the job.
#![tactic(auto)]

ghost use Rattle.std.specs.Prelude.{◌≡◌, ℕ, ◌≤◌};
ghost use Rattle.spec.specs.Deal.{max_dealt};
ghost use Rattle.rounds.specs.OnTable.{dealing, give_to, Gives, round_on, rounds_on, GivesAll};

use header::Header;
use reader::{Headed, Reader};
use turn::Row;

// ---- one operation

// "each unfinished operation gets one turn, and one that would only wait at that moment is passed over": operation i, when t turns are dealt. How
// many are dealt then. (A struct of the three lent slices would need of each function here a clause for each, that it is still the same one.
// And not by `table::take_turn`: whether the row idles would be asked twice, since the turn is written between that and the step.)
fn give(
    rows: &mut [Row],
    i: usize,
    reader: Headed,
    t: usize,
    out: &mut [u8],
    work: &mut [u8],
) -> usize
    requires { Gives reader.header reader.job.now i (dealing rows.old out.old work.old t) }
    ensures { dealing rows.new out.new work.new result ≡ give_to reader.entry.header reader.entry.job.now i (dealing rows.old out.old work.old t) }
{
    let row = rows[i];
    if row.idles(work) {
        return t;
    }
    let h = reader.header;
    wire::put_u16(out, h.turns_offset() + 2 * t, i);
    rows[i] = row.step(run::shape_of(h), reader.op(i), t as u16, work);
    t + 1
}

// ---- rounds

// A round, "by rising operation number", when t turns are dealt. How many are dealt then.
fn round(rows: &mut [Row], reader: Headed, t: usize, out: &mut [u8], work: &mut [u8]) -> usize
    requires { GivesAll reader.header reader.job.now (dealing rows.old out.old work.old t) }
    ensures { dealing rows.new out.new work.new result ≡ round_on reader.entry.header reader.entry.job.now (dealing rows.old out.old work.old t) }
{
    let mut n = t;
    for i in 0..reader.header.ops {
        n = give(rows, i, reader, n, out, work);
    }
    n
}

// Rounds, until one deals no turn: "It stops when all have finished". How many turns are dealt. (How many rounds there are is not known before, so
// this loop counts nothing. Where there are no operations nothing is asked of the header, and there is no reader.)
pub fn rounds(rows: &mut [Row], job: &[u8], h: Header, out: &mut [u8], work: &mut [u8]) -> usize
    requires { (n : ℕ) → GivesAll h job.now (rounds_on h job.now n (dealing rows.old out.old work.old 0)) × ((rounds_on h job.now n (dealing rows.old out.old work.old 0)).turns ≤ max_dealt) }
    ensures { dealing rows.new out.new work.new result ≡ rounds_on h job.now max_dealt (dealing rows.old out.old work.old 0) }
{
    if h.ops == 0 {
        return 0;
    }
    let reader = Reader::new(job, h).headed();
    let mut n = 0;
    loop {
        let t = n;
        n = round(rows, reader, t, out, work);
        if n == t {
            return n;
        }
    }
}
