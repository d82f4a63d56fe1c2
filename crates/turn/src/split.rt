// The turns of a split: the new pages, the entries that go to them, and the unlocking of the new pages. (Its page x, the pages b in use before it and
// its n new pages are three arguments, as they are in `Stage::Split`, which the definitions share.)
ghost use Rattle.std.specs.Prelude.{◌≡◌, ◌+◌, ◌≤◌, ◌<◌};
ghost use Rattle.spec.specs.Split.{split_count};
ghost use Rattle.memory.specs.Memory.{with_entry, with_turn, page_in};
ghost use Rattle.turn.specs.Steps.{out, plan, behind, goes, after_new, after_entry, mem_new, mem_entry, mem_split};
ghost use Rattle.turn.specs.Safe.{Few, Ready, Planned, Splitting, SafeSplit};

use crate::codes::Code;
use crate::{Row, Turn, entries};
use spec::{Part, Stage, Task};

impl Turn {
    // The entry behind what the old page keeps: the first that goes to a new page.
    fn first_changed(self, x: u16, n: u16, work: &[u8]) -> u16
        requires { Ready self.shape work.now × Planned self.shape self.op work.now x × (n ≡ split_count (page_in self.shape.capacity work.now x) self.op.call) }
        ensures { result ≡ behind self.shape.depth (plan self.shape self.op work.now x).old }
    {
        let d = memory::page_depth(work, self.shape.capacity, x);
        let q = pieces::old_piece(self.op.call, d, n as usize);
        entries::behind(self.shape.depth, q.depth, q.pattern) as u16
    }

    // What comes behind new page i of n.
    #[tactic(auto, using(crate::proofs::Choices::choices), unfolding(crate::specs::Steps::after_new))]
    fn after_new(self, x: u16, n: u16, i: u16, work: &[u8]) -> Part
        requires { Ready self.shape work.now × Planned self.shape self.op work.now x × (n ≡ split_count (page_in self.shape.capacity work.now x) self.op.call) }
        ensures { result ≡ after_new self.shape self.op work.now x n i }
    {
        if i < n {
            Part::WriteNew(i + 1)
        } else {
            Part::WriteEntry(self.first_changed(x, n, work))
        }
    }

    // What comes behind entry j: the next one, up to the end of the page that was split.
    #[tactic(auto, using(crate::proofs::Choices::choices), unfolding(crate::specs::Steps::after_entry, crate::specs::Steps::behind))]
    fn after_entry(self, x: u16, j: u16, work: &[u8]) -> Part
        requires { Ready self.shape work.now × (x ≤ 256) × ((page_in self.shape.capacity work.now x).depth ≤ self.shape.depth) × (j < 256) }
        ensures { result ≡ after_entry self.shape work.now x j }
    {
        let d = memory::page_depth(work, self.shape.capacity, x);
        let p = memory::page_pattern(work, self.shape.capacity, x);
        if ((j + 1) as usize) < entries::behind(self.shape.depth, d, p) {
            Part::WriteEntry(j + 1)
        } else {
            Part::UnlockNew
        }
    }

    // Entry j goes from page x to its new page, whose number is returned, and the turn of the change is noted.
    #[tactic(auto, using(crate::proofs::Plans::plan_end, crate::proofs::Plans::plan_deep), unfolding(crate::specs::Steps::goes))]
    fn redirect(self, x: u16, b: u16, n: u16, j: u16, work: &mut [u8]) -> u16
        requires { Ready self.shape work.old × Splitting self.shape self.op work.old x b n × (j < 256) }
        ensures { (result ≡ b + goes self.shape self.op work.old x n j) × (work.new ≡ with_entry (with_turn work.old j (page_in self.shape.capacity work.old x).depth self.now) j result) }
    {
        let d = memory::page_depth(work, self.shape.capacity, x);
        let k = entries::last_one(self.shape.depth, self.op.call, j as usize, n as usize, d);
        memory::set_change_turn(work, j as usize, d, self.now);
        let y = b + k as u16;
        memory::set_entry(work, j as usize, y);
        y
    }
}

impl Row {
    // "one turn for each new page written"
    #[tactic(auto, unfolding(crate::specs::Steps::mem_new, crate::specs::Steps::plan))]
    fn write_new(self, turn: Turn, x: u16, b: u16, n: u16, i: u16, work: &mut [u8]) -> Row
        requires { Ready turn.shape work.old × Few self × Splitting turn.shape turn.op work.old x b n × (1 ≤ i) × (i ≤ n) }
        ensures { out result work.new ≡ mem_new turn.shape turn.op self work.old x b n i }
    {
        let next = turn.after_new(x, n, i, work);
        memory::write_new_page(work, turn.shape.capacity, x, b + i, n, i, turn.record());
        self.moved(Stage::Split(x, b, n, next))
    }

    // "one for each changed entry by rising index". "stored, .. else the writing of the call's own entry", and the page is the one that it then names.
    #[tactic(auto, using(crate::proofs::Choices::choices, crate::proofs::Plans::plan_deep), unfolding(crate::specs::Steps::mem_entry))]
    fn write_entry(self, turn: Turn, x: u16, b: u16, n: u16, j: u16, work: &mut [u8]) -> Row
        requires { Ready turn.shape work.old × Few self × Splitting turn.shape turn.op work.old x b n × (j < 256) }
        ensures { out result work.new ≡ mem_entry turn.shape turn.op turn.now self work.old x b n j }
    {
        let next = turn.after_entry(x, j, work);
        let y = turn.redirect(x, b, n, j, work);
        let row = self.moved(Stage::Split(x, b, n, next));
        if j as usize == turn.home() {
            row.answered(Code::Stored, turn.op.charge, y, turn.now)
        } else {
            row
        }
    }

    // The turn of an operation that holds page x and the new pages b + 1 to b + n.
    #[tactic(auto, unfolding(crate::specs::Steps::mem_split))]
    pub(crate) fn split(
        self,
        turn: Turn,
        x: u16,
        b: u16,
        n: u16,
        part: Part,
        work: &mut [u8],
    ) -> Row
        requires { Ready turn.shape work.old × Few self × SafeSplit turn.shape turn.op work.old x b n part }
        ensures { out result work.new ≡ mem_split turn.shape turn.op turn.now self work.old x b n part }
    {
        match part {
            Part::WriteNew(i) => self.write_new(turn, x, b, n, i, work),
            Part::WriteEntry(j) => self.write_entry(turn, x, b, n, j, work),
            Part::UnlockNew => self.unlock(b + 1, n, Stage::Held(x, Task::WriteOld), work),
        }
    }
}
