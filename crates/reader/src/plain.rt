// A reader as it is made, of any bytes and any counts. What it shows of the job it asks for.
ghost use Rattle.std.specs.Prelude.{◌≡◌};
ghost use Rattle.header.specs.Counts.{counts_of, Heads};
ghost use Rattle.reader.specs.Parts.{directory_in, table_in, ops_in, turns_in};

use crate::{Headed, Reader};
use header::Header;

impl<'a> Reader<'a> {
    pub fn new(job: &'a [u8], header: Header) -> Reader<'a>
        ensures { (result.job ≡ job.entry) × (result.header ≡ header) }
    {
        Reader { job, header }
    }

    // Where the counts are right, the sections can be shown.
    pub fn headed(self) -> Headed<'a>
        requires { Heads self.header self.job.now }
        ensures { (result.job ≡ self.entry.job) × (result.header ≡ self.entry.header) }
    {
        Headed {
            job: self.job,
            header: self.header,
        }
    }

    pub fn directory(self) -> &'a [u8]
        requires { Heads self.header self.job.now }
        ensures { result.now ≡ directory_in (counts_of self.entry.header) self.entry.job.now }
    {
        self.headed().directory()
    }

    pub fn page_table(self) -> &'a [u8]
        requires { Heads self.header self.job.now }
        ensures { result.now ≡ table_in (counts_of self.entry.header) self.entry.job.now }
    {
        self.headed().page_table()
    }

    pub fn operations(self) -> &'a [u8]
        requires { Heads self.header self.job.now }
        ensures { result.now ≡ ops_in (counts_of self.entry.header) self.entry.job.now }
    {
        self.headed().operations()
    }

    pub fn turn_list(self) -> &'a [u8]
        requires { Heads self.header self.job.now }
        ensures { result.now ≡ turns_in (counts_of self.entry.header) self.entry.job.now }
    {
        self.headed().turn_list()
    }
}
