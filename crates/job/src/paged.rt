// A job whose entries name pages in use, and whose pages are right each by itself.
ghost use Rattle.job.specs.Owner.{Paged};

use reader::Headed;

// Rows 5, 12, 6 and 13 have passed too.
#[derive(Clone, Copy)]
pub struct Pages<'a> {
    pub reader: Headed<'a>,
    ghost paged: { Paged reader.header reader.job.now },
}
