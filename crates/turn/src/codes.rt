// The codes of answers.
#[derive(Clone, Copy)]
pub enum Code {
    Found = 1,
    NotFound = 2,
    Stored = 3,
    AlreadyThere = 4,
    Deleted = 5,
    Absent = 6,
    NoDepth = 7,
    NoPage = 8,
    Differs = 9,
}
