// The turns of a search, and the first turn of every operation.
ghost use Rattle.std.specs.Prelude.{◌≡◌, ◌≤◌};
ghost use Rattle.spec.specs.Turn.{begin};
ghost use Rattle.memory.specs.Memory.{found_in};
ghost use Rattle.turn.specs.Rows.{moved};
ghost use Rattle.turn.specs.Steps.{out, named, found_at, mem_looked, mem_reread};
ghost use Rattle.turn.specs.Safe.{Few, Ready, Reading, Kept};

use crate::codes::Code;
use crate::{Row, Turn};
use spec::{Kind, Stage};

impl Turn {
    // The page that the call's own entry names.
    #[tactic(auto, unfolding(crate::specs::Steps::named))]
    pub(crate) fn named(self, work: &[u8]) -> u16
        requires { Ready self.shape work.now }
        ensures { result ≡ named self.shape self.op work.now }
    {
        memory::entry_at(work, self.home())
    }

    // "a found search, its page reading, or, where its entry no longer names that page, the turn on which the entry was changed from it"
    #[tactic(auto, using(crate::proofs::Choices::choices), unfolding(crate::specs::Steps::found_at))]
    fn found_at(self, x: u16, work: &[u8]) -> u16
        requires { Ready self.shape work.now × (x ≤ 256) × Kept self.shape self.op work.now x }
        ensures { result ≡ found_at self.shape self.op self.now work.now x }
    {
        if self.named(work) == x {
            return self.now;
        }
        let d = memory::page_depth(work, self.shape.capacity, x);
        memory::change_turn(work, self.home(), d)
    }
}

impl Row {
    // "Search: read its entry"; "Insert and delete: (a) read the entry"
    #[tactic(auto, unfolding(spec::specs::Turn::begin))]
    pub(crate) fn begin(self, turn: Turn, work: &[u8]) -> Row
        requires { Ready turn.shape work.now × Few self }
        ensures { result ≡ moved self (begin turn.op.kind (named turn.shape turn.op work.now)) }
    {
        let y = turn.named(work);
        match turn.op.kind {
            Kind::Search => self.moved(Stage::ReadPage(y)),
            Kind::Insert | Kind::Delete => self.moved(Stage::Lock(y)),
        }
    }

    // "read that page (found: finished)"
    #[tactic(auto, unfolding(crate::specs::Steps::mem_looked_at))]
    pub(crate) fn read_page(self, turn: Turn, x: u16, work: &[u8]) -> Row
        requires { Ready turn.shape work.now × Few self × Reading turn.shape turn.op work.now x }
        ensures { out result work.now ≡ mem_looked turn.shape turn.op turn.now self work.now (found_in turn.shape.capacity work.now x turn.op.call) }
    {
        let found = memory::find_in(work, turn.shape.capacity, x, turn.op.call);
        let y = found.page;
        match found.charge {
            Some(v) => {
                let at = turn.found_at(y, work);
                self.moved(Stage::Done).answered(Code::Found, v, y, at)
            }
            None => self.moved(Stage::Reread(y, turn.now)),
        }
    }

    // "read the entry again. The same page number means "none", finished; else read the page now named". Page x was read on turn u.
    #[tactic(auto, using(crate::proofs::Choices::choices), unfolding(crate::specs::Steps::mem_reread))]
    pub(crate) fn reread(self, turn: Turn, x: u16, u: u16, work: &[u8]) -> Row
        requires { Ready turn.shape work.now × Few self }
        ensures { out result work.now ≡ mem_reread turn.shape turn.op self work.now x u }
    {
        let y = turn.named(work);
        if y == x {
            self.moved(Stage::Done).answered(Code::NotFound, 0, x, u)
        } else {
            self.moved(Stage::ReadPage(y))
        }
    }
}
