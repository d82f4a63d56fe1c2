// The turns of an insert or a delete that holds one page.
ghost use Rattle.std.specs.Prelude.{◌≡◌, ◌+◌, ◌≤◌, eqb, length};
ghost use Rattle.spec.specs.declared.Stage.TheVariants.{Held};
ghost use Rattle.spec.specs.declared.Task.TheVariants.{Unlock};
ghost use Rattle.spec.specs.Job.{strikes};
ghost use Rattle.spec.specs.Check.{work_size};
ghost use Rattle.spec.specs.Split.{split_count};
ghost use Rattle.spec.specs.Turn.{rec_of};
ghost use Rattle.memory.specs.Memory.{with_locks, with_used, page_in, found_in};
ghost use Rattle.turn.specs.Rows.{moved, code_number};
ghost use Rattle.turn.specs.Steps.{out, settled, home, goes, mem_lock, mem_verified, mem_taken, mem_full, mem_placed, mem_at_charge, mem_decided, mem_struck, mem_written, mem_old, mem_held};
ghost use Rattle.turn.specs.Safe.{Few, Ready, Readable, Planned, Writable, SafeHeld};

use crate::codes::Code;
use crate::{Row, Turn, entries};
use spec::{Found, Kind, Part, Rec, Stage, Task};

// A delete "with charge zero strikes out as ever", and with another only "where the file's charge is equal".
#[tactic(auto, unfolding(spec::specs::Job::strikes))]
fn strikes_out(asked: u32, held: u32) -> bool
    ensures { result ≡ strikes asked held }
{
    asked == 0 || asked == held
}

// A split takes n new pages, when u are in use: they are locked, and from then on in use.
fn take_pages(u: u16, n: u16, work: &mut [u8])
    requires { (work_size ≤ length work.old) × (u + n ≤ 256) }
    ensures { work.new ≡ with_used (with_locks work.old (u + 1) n 1) (u + n) }
{
    memory::set_locks(work, u + 1, n, 1);
    memory::set_used(work, (u + n) as usize);
}

impl Turn {
    // The record that an insert stores.
    pub(crate) fn record(self) -> Rec
        ensures { result ≡ rec_of self.op }
    {
        Rec {
            call: self.op.call,
            charge: self.op.charge,
        }
    }

    // The call stays in page x, of which n splits are made: its own entry goes to none of the new pages, that is to 0 of `Steps.goes`.
    #[tactic(auto, using(crate::proofs::Plans::plan_end), unfolding(crate::specs::Steps::goes))]
    fn stays(self, x: u16, n: usize, work: &[u8]) -> bool
        requires { Ready self.shape work.now × Planned self.shape self.op work.now x × (n ≡ split_count (page_in self.shape.capacity work.now x) self.op.call) }
        ensures { result ≡ eqb (goes self.shape self.op work.now x n (home self.shape self.op)) 0 }
    {
        let d = memory::page_depth(work, self.shape.capacity, x);
        entries::last_one(self.shape.depth, self.op.call, self.home(), n, d) == 0
    }
}

impl Row {
    // "(b) lock that page; if it is locked, the turn only waits"
    #[tactic(auto, using(crate::proofs::Choices::choices), unfolding(crate::specs::Steps::mem_lock))]
    pub(crate) fn lock(self, x: u16, work: &mut [u8]) -> Row
        requires { (work_size ≤ length work.old) × Few self × (x ≤ 256) }
        ensures { out result work.new ≡ mem_lock self work.old x }
    {
        if memory::is_locked(work, x) {
            return self;
        }
        memory::set_locks(work, x, 1, 1);
        self.moved(Stage::Held(x, Task::Verify))
    }

    // The locks of n pages, from x on, are given back.
    pub(crate) fn unlock(self, x: u16, n: u16, next: Stage, work: &mut [u8]) -> Row
        requires { (work_size ≤ length work.old) × Few self × (x + n ≤ 257) }
        ensures { out result work.new ≡ out (moved self next) (with_locks work.old x n 0) }
    {
        memory::set_locks(work, x, n, 0);
        self.moved(next)
    }

    // "(c) read the entry again. If it names another page, the next turn unlocks the page held, and (b) follows with the page just read"
    #[tactic(auto, using(crate::proofs::Choices::choices), unfolding(crate::specs::Steps::mem_verified))]
    fn verify(self, turn: Turn, x: u16, work: &[u8]) -> Row
        requires { Ready turn.shape work.now × Few self }
        ensures { out result work.now ≡ mem_verified turn.shape turn.op self work.now x }
    {
        let y = turn.named(work);
        if y == x {
            self.moved(Stage::Held(x, Task::Decide))
        } else {
            self.moved(Stage::Held(x, Task::Release(y)))
        }
    }

    // The operation has its answer, told with the page that it holds, and the next turn unlocks that page.
    fn settled(self, x: u16, code: Code, charge: u32, moment: u16) -> Row
        requires { Few self }
        ensures { result ≡ settled self x (code_number code) charge moment }
    {
        self.moved(Stage::Held(x, Task::Unlock))
            .answered(code, charge, x, moment)
    }

    // A delete with the charge `asked` finds its call in page x at the charge `held`: "Where the call is there at another charge, the answer is
    // 9, "differs", with the file's charge".
    #[tactic(auto, using(crate::proofs::Choices::choices), unfolding(crate::specs::Steps::mem_at_charge))]
    fn at_charge(self, asked: u32, t: u16, x: u16, held: u32) -> Row
        requires { Few self }
        ensures { result ≡ mem_at_charge asked t self x held }
    {
        if strikes_out(asked, held) {
            self.moved(Stage::Held(x, Task::WritePage))
        } else {
            self.settled(x, Code::Differs, held, t)
        }
    }

    // The answer of a delete, by what it found in its page.
    fn struck(self, t: u16, found: Found) -> Row
        requires { Few self }
        ensures { result ≡ mem_struck t self found }
    {
        self.settled(found.page, Code::Deleted, found.charge.unwrap_or(0), t)
    }

    // "turn (d) also takes and locks pages U+1 to U+n in the order of the splits, and from then on U is n more"
    #[tactic(auto, unfolding(crate::specs::Steps::mem_taken))]
    fn taken(self, x: u16, u: u16, n: u16, work: &mut [u8]) -> Row
        requires { (work_size ≤ length work.old) × Few self × (u + n ≤ 256) }
        ensures { out result work.new ≡ mem_taken self work.old x u n }
    {
        take_pages(u, n, work);
        self.moved(Stage::Split(x, u, n, Part::WriteNew(1)))
    }

    // "Insert into a full page": ""No depth" exactly when all c records share their first g bits with the call; otherwise "no page" exactly
    // when U + n is above P".
    #[tactic(auto, using(crate::proofs::Choices::choices), unfolding(crate::specs::Steps::mem_full, crate::specs::Steps::mem_refused, spec::specs::Split::split_count))]
    fn fill(self, turn: Turn, x: u16, work: &mut [u8]) -> Row
        requires { Ready turn.shape work.old × Few self × Readable turn.shape work.old x }
        ensures { out result work.new ≡ mem_full turn.shape turn.op turn.now self work.old x (page_in turn.shape.capacity work.old x) }
    {
        let least = memory::least_shared_in(work, turn.shape.capacity, x, turn.op.call);
        if turn.shape.depth <= least {
            return self.settled(x, Code::NoDepth, 0, turn.now);
        }
        let n = pieces::splits(least, memory::page_depth(work, turn.shape.capacity, x));
        let u = memory::used(work);
        if turn.shape.pages < u + n {
            return self.settled(x, Code::NoPage, 0, turn.now);
        }
        self.taken(x, u as u16, n as u16, work)
    }

    // An insert whose call is not in page x.
    #[tactic(auto, using(crate::proofs::Choices::choices), unfolding(crate::specs::Steps::mem_placed))]
    fn place(self, turn: Turn, x: u16, work: &mut [u8]) -> Row
        requires { Ready turn.shape work.old × Few self × Readable turn.shape work.old x }
        ensures { out result work.new ≡ mem_placed turn.shape turn.op turn.now self work.old x (page_in turn.shape.capacity work.old x) }
    {
        if memory::page_count(work, turn.shape.capacity, x) < turn.shape.capacity {
            self.moved(Stage::Held(x, Task::WritePage))
        } else {
            self.fill(turn, x, work)
        }
    }

    // "(d) read the page and decide". (No search comes here, nor to `write_page`.)
    #[tactic(auto, unfolding(crate::specs::Steps::mem_decided_at, crate::specs::Steps::mem_refused))]
    fn decide(self, turn: Turn, x: u16, work: &mut [u8]) -> Row
        requires { Ready turn.shape work.old × Few self × Readable turn.shape work.old x }
        ensures { out result work.new ≡ mem_decided turn.shape turn.op turn.now self work.old turn.op.kind (found_in turn.shape.capacity work.old x turn.op.call) }
    {
        let found = memory::find_in(work, turn.shape.capacity, x, turn.op.call);
        let y = found.page;
        match (turn.op.kind, found.charge) {
            (Kind::Search, _) => self.moved(Stage::Held(y, Task::Unlock)),
            (Kind::Insert, Some(v)) => self.settled(y, Code::AlreadyThere, v, turn.now),
            (Kind::Insert, None) => self.place(turn, y, work),
            (Kind::Delete, Some(v)) => self.at_charge(turn.op.charge, turn.now, y, v),
            (Kind::Delete, None) => self.settled(y, Code::Absent, 0, turn.now),
        }
    }

    // "a turn writes the page"
    #[tactic(auto, unfolding(crate::specs::Steps::mem_written))]
    fn write_page(self, turn: Turn, x: u16, work: &mut [u8]) -> Row
        requires { Ready turn.shape work.old × Few self × Writable turn.shape work.old x turn.op.kind }
        ensures { out result work.new ≡ mem_written turn.shape turn.op turn.now self work.old x turn.op.kind (page_in turn.shape.capacity work.old x) }
    {
        match turn.op.kind {
            Kind::Search => self.moved(Stage::Held(x, Task::Unlock)),
            Kind::Insert => {
                memory::add_to(work, turn.shape.capacity, x, turn.record());
                self.settled(x, Code::Stored, turn.op.charge, turn.now)
            }
            Kind::Delete => {
                let found = memory::find_in(work, turn.shape.capacity, x, turn.op.call);
                memory::remove_from(work, turn.shape.capacity, x, turn.op.call);
                self.struck(turn.now, found)
            }
        }
    }

    // "one writing the old page": the call's moment, where it is in the old page.
    #[tactic(auto, using(crate::proofs::Choices::choices), unfolding(crate::specs::Steps::mem_old, crate::specs::Steps::plan))]
    fn write_old(self, turn: Turn, x: u16, work: &mut [u8]) -> Row
        requires { Ready turn.shape work.old × Few self × Planned turn.shape turn.op work.old x }
        ensures { out result work.new ≡ mem_old turn.shape turn.op turn.now self work.old x }
    {
        let n = memory::split_count_in(work, turn.shape.capacity, x, turn.op.call);
        let own = turn.stays(x, n, work);
        memory::write_old_page(work, turn.shape.capacity, x, n, turn.record());
        if own {
            self.settled(x, Code::Stored, turn.op.charge, turn.now)
        } else {
            self.moved(Stage::Held(x, Task::Unlock))
        }
    }

    // The turn of an operation that holds page x.
    #[tactic(auto, unfolding(crate::specs::Steps::mem_held))]
    pub(crate) fn held(self, turn: Turn, x: u16, task: Task, work: &mut [u8]) -> Row
        requires { Ready turn.shape work.old × Few self × SafeHeld turn.shape turn.op work.old x task }
        ensures { out result work.new ≡ mem_held turn.shape turn.op turn.now self work.old x task }
    {
        match task {
            Task::Verify => self.verify(turn, x, work),
            Task::Release(y) => self.unlock(x, 1, Stage::Lock(y), work),
            Task::Decide => self.decide(turn, x, work),
            Task::WritePage => self.write_page(turn, x, work),
            Task::WriteOld => self.write_old(turn, x, work),
            Task::Unlock => self.unlock(x, 1, Stage::Done, work),
        }
    }
}
