// The values that code and definitions share, so that no translation between the two has to be believed; and the reasons of refusals, with their
// numbers. What each case and field stands for is said in specs/.
#![tactic(auto)]

ghost use Rattle.std.specs.Prelude.{◌≡◌};
ghost use Rattle.spec.specs.Cases.{reason_number, fault_of, fault_in};
ghost use Rattle.spec.specs.Check.{numbered};

// "kind (1 search, 2 insert, 3 delete)": the numbers are tied to the cases in specs/Job.antt.
#[derive(Clone, Copy)]
pub enum Kind {
    Search,
    Insert,
    Delete,
}

// A call with its charge in cents, as a page keeps it.
#[derive(Clone, Copy)]
pub struct Rec {
    pub call: u32,
    pub charge: u32,
}

// An operation of a job.
#[derive(Clone, Copy)]
pub struct Op {
    pub kind: Kind,
    pub call: u32,
    pub charge: u32,
}

// What an operation that holds one page, and no other, does next.
#[derive(Clone, Copy)]
pub enum Task {
    Verify,
    Release(u16),
    Decide,
    WritePage,
    WriteOld,
    Unlock,
}

// What an operation that holds a page and the new pages of its split does next:
// write a new page (from 1), write an entry, unlock the new pages.
#[derive(Clone, Copy)]
pub enum Part {
    WriteNew(u16),
    WriteEntry(u16),
    UnlockNew,
}

// Where an operation stands, that is what its next turn does. `ReadPage` and `Lock` have the page that it will read or lock; `Reread` has the page
// that it read, and the turn of that reading; `Held` has the page held; `Split` has the page held, the number of pages in use before the split, and
// the number of its new pages.
#[derive(Clone, Copy)]
pub enum Stage {
    NotBegun,
    ReadPage(u16),
    Reread(u16, u16),
    Lock(u16),
    Held(u16, Task),
    Split(u16, u16, u16, Part),
    Done,
}

// What looking for a call in a page comes to: the page's number, and the call's charge there, if it is not missing.
#[derive(Clone, Copy)]
pub struct Found {
    pub page: u16,
    pub charge: Option<u32>,
}

// Why a call is refused, in the order of the refusals' numbers. 17 and 20 are no call's.
#[derive(Clone, Copy)]
pub enum Reason {
    Short = 1,
    Version = 2,
    Limit = 3,
    Offset = 4,
    Entry = 5,
    Page = 6,
    Owner = 7,
    Record = 8,
    Operation = 9,
    Turn = 10,
    Output = 11,
    Pattern = 12,
    Zero = 13,
    Band = 14,
    Charge = 15,
    Tariff = 16,
    Present = 18,
    Depth = 19,
    Dealt = 21,
}

// "A refusal gives the number and a place".
#[derive(Clone, Copy)]
pub struct Refusal {
    pub reason: Reason,
    pub place: usize,
}

impl Reason {
    // The number that it is told with.
    pub fn number(self) -> usize
        ensures { result ≡ reason_number self }
    {
        self as usize
    }

    // The refusal at a place.
    pub fn at(self, place: usize) -> Refusal
        ensures { fault_of result ≡ record { number = reason_number self; place = place } }
    {
        Refusal {
            reason: self,
            place,
        }
    }

    // The answer of a row of the refusal table that was looked for: refused at the lowest place where it holds, if it holds at one.
    #[tactic(auto, unfolding(crate::specs::Check::numbered))]
    pub fn refuses(self, place: Option<usize>) -> Result<(), Refusal>
        ensures { fault_in result ≡ numbered (reason_number self) place }
    {
        match place {
            Some(place) => Err(self.at(place)),
            None => Ok(()),
        }
    }
}
