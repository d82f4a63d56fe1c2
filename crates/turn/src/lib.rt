// One turn of one operation, on the working memory.
#![tactic(auto)]

mod codes;
mod entries;
mod held;
mod rows;
mod search;
mod split;

ghost use Rattle.std.specs.Prelude.{◌≡◌};
ghost use Rattle.turn.specs.Rows.{blank_row};
ghost use Rattle.turn.specs.Steps.{out, mem_step, idles};
ghost use Rattle.turn.specs.Safe.{Safe, Lockable};

use memory::Shape;
use spec::{Op, Stage};

// (Numbers, and no enums: C lends the rows, with any numbers in them.)
// An operation's row: its stage in numbers, its turns used, and its answer, with the page that is told; 16 bytes, and no padding. A page (`page`,
// `told`) is kept as its number less one, so that page 256 has a byte too, and what a split counts (`count`, `next`) is below 256. `base` may be a
// turn, and has 16 bits like `used` and `moment`.
#[repr(C)]
#[derive(Clone, Copy, Default)]
pub struct Row {
    pub charge: u32,
    pub used: u16,
    pub moment: u16,
    pub base: u16,
    pub stage: u8,
    pub code: u8,
    pub page: u8,
    pub told: u8,
    pub count: u8,
    pub next: u8,
}

impl Row {
    // "one fixed value, the same for every job, that stands for an operation not begun"
    pub fn blank() -> Row
        ensures { result ≡ blank_row }
    {
        Row::default()
    }

    // "One turn is one step of the operation it names": the operation is handed in and comes back moved on, on turn t.
    #[tactic(auto, unfolding(crate::specs::Steps::mem_step, crate::specs::Steps::mem_turn))]
    pub fn step(mut self, shape: Shape, op: Op, t: u16, work: &mut [u8]) -> Row
        requires { Safe shape op self work.old }
        ensures { out result work.new ≡ mem_step shape op t self work.old }
    {
        let turn = Turn { shape, op, now: t };
        match self.stage_now() {
            Stage::NotBegun => self = self.begin(turn, work),
            Stage::ReadPage(x) => self = self.read_page(turn, x, work),
            Stage::Reread(x, u) => self = self.reread(turn, x, u, work),
            Stage::Lock(x) => self = self.lock(x, work),
            Stage::Held(x, task) => self = self.held(turn, x, task, work),
            Stage::Split(x, b, n, part) => self = self.split(turn, x, b, n, part, work),
            Stage::Done => {}
        }
        self
    }

    // A turn would do nothing for the operation: it "only waits", or is finished.
    #[tactic(auto, unfolding(crate::specs::Steps::idles, crate::specs::Steps::idle_at))]
    pub fn idles(self, work: &[u8]) -> bool
        requires { Lockable self work.now }
        ensures { result ≡ idles self work.now }
    {
        match self.stage_now() {
            Stage::Lock(x) => memory::is_locked(work, x),
            Stage::Done => true,
            _ => false,
        }
    }
}

// One turn: the shape of the run, the operation that the turn names, and the turn's number. (What the functions on it ask stands in their contracts
// and in no type: `Few` is of a row, which C lends with any numbers in it, and `Ready` is of the shape and of the memory that is lent beside it, as
// are `Readable`, `Planned` and `Splitting`. The numbers x, j and n come out of rows, where they are plain numbers.)
#[derive(Clone, Copy)]
pub(crate) struct Turn {
    pub(crate) shape: Shape,
    pub(crate) op: Op,
    pub(crate) now: u16,
}
