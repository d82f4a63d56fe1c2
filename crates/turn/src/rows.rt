// An operation's row in numbers: the stage that it stands for, and the row of the stage that comes next. (Numbers, since a row is 16 bytes that C lends;
// which number is which stage is said here, and of the first and the last in `result`. Methods, and no `From`: the way back begins
// with the row that was.)
ghost use Rattle.std.specs.Prelude.{◌≡◌, ◌+◌};
ghost use Rattle.turn.specs.Rows.{byte_of_page, numbers, row_with, stage_in, moved, answered, code_number};
ghost use Rattle.turn.specs.Safe.{Few};

use crate::Row;
use crate::codes::Code;
use spec::{Part, Stage, Task};

// "the page number less one". No page, which is 0, is 0: of a row without an answer, "For code 0 it stays zero". (The remainder is for pages that
// no run has: a page number is at most 256.)
#[tactic(auto, unfolding(crate::specs::Rows::byte_of_page))]
fn page_byte(x: u16) -> u8
    ensures { result ≡ byte_of_page x }
{
    if x == 0 {
        return 0;
    }
    ((x - 1) % 256) as u8
}

impl Row {
    // The stage of a row. What only a split has is read in its own arms: read before them, it would cost every turn.
    #[tactic(auto, unfolding(crate::specs::Rows::stage_in, crate::proofs::Choices::chosen))]
    pub(crate) fn stage_now(self) -> Stage
        ensures { result ≡ stage_in self }
    {
        let x = self.page as u16 + 1;
        let b = self.base;
        match self.stage {
            0 => Stage::NotBegun,
            1 => Stage::ReadPage(x),
            2 => Stage::Reread(x, b),
            3 => Stage::Lock(x),
            4 => Stage::Held(x, Task::Verify),
            5 => Stage::Held(x, Task::Release(b)),
            6 => Stage::Held(x, Task::Decide),
            7 => Stage::Held(x, Task::WritePage),
            8 => Stage::Held(x, Task::WriteOld),
            9 => Stage::Held(x, Task::Unlock),
            10 => Stage::Split(x, b, self.count as u16, Part::WriteNew(self.next as u16)),
            11 => Stage::Split(x, b, self.count as u16, Part::WriteEntry(self.next as u16)),
            12 => Stage::Split(x, b, self.count as u16, Part::UnlockNew),
            _ => Stage::Done,
        }
    }

    // One more turn is used, and these are the numbers of the next stage, each in the room that the row has for it.
    fn put(self, stage: u8, page: u16, base: u16, count: u16, next: u16) -> Row
        requires { Few self }
        ensures { result ≡ row_with (numbers stage page base count next) (self.used + 1) self.code self.charge self.told self.moment }
    {
        Row {
            used: self.used + 1,
            base,
            stage,
            page: page_byte(page),
            count: (count % 256) as u8,
            next: (next % 256) as u8,
            ..self
        }
    }

    // The row after a turn that leads to a stage.
    #[tactic(auto, unfolding(crate::specs::Rows::moved, crate::specs::Rows::stage_numbers, crate::specs::Rows::task_numbers, crate::specs::Rows::part_numbers))]
    pub(crate) fn moved(self, st: Stage) -> Row
        requires { Few self }
        ensures { result ≡ moved self st }
    {
        match st {
            Stage::NotBegun => self.put(0, 0, 0, 0, 0),
            Stage::ReadPage(x) => self.put(1, x, 0, 0, 0),
            Stage::Reread(x, t) => self.put(2, x, t, 0, 0),
            Stage::Lock(x) => self.put(3, x, 0, 0, 0),
            Stage::Held(x, Task::Verify) => self.put(4, x, 0, 0, 0),
            Stage::Held(x, Task::Release(y)) => self.put(5, x, y, 0, 0),
            Stage::Held(x, Task::Decide) => self.put(6, x, 0, 0, 0),
            Stage::Held(x, Task::WritePage) => self.put(7, x, 0, 0, 0),
            Stage::Held(x, Task::WriteOld) => self.put(8, x, 0, 0, 0),
            Stage::Held(x, Task::Unlock) => self.put(9, x, 0, 0, 0),
            Stage::Split(x, b, n, Part::WriteNew(i)) => self.put(10, x, b, n, i),
            Stage::Split(x, b, n, Part::WriteEntry(j)) => self.put(11, x, b, n, j),
            Stage::Split(x, b, n, Part::UnlockNew) => self.put(12, x, b, n, 0),
            Stage::Done => self.put(13, 0, 0, 0, 0),
        }
    }

    // The operation's answer, with its page. "The code is set when the operation's moment is known"
    #[tactic(auto, unfolding(crate::specs::Rows::answered))]
    pub(crate) fn answered(self, code: Code, charge: u32, told: u16, moment: u16) -> Row
        ensures { result ≡ answered self (code_number code) charge told moment }
    {
        Row {
            charge,
            moment,
            code: code as u8,
            told: page_byte(told),
            ..self
        }
    }
}
