// Kinds and codes in words, by their numbers as the bytes of a job and of a result have them. (What is printed is known by its bytes
// alone: by way of an enum there would be two matches in place of one.)
#![tactic(auto)]

ghost use Rattle.std.specs.Prelude.{◌≡◌, ◌≤◌, length};
ghost use Rattle.spec.specs.Job.{kind_of};
ghost use Rattle.spec.specs.Report.{kind_word, code_word};

// "kind (1 search, 2 insert, 3 delete)". An accepted job has no other number.
pub fn kind_word(kind: u8) -> &'static [u8]
    ensures word { result.now ≡ kind_word (kind_of kind) }
    ensures short { length result.now ≤ 6 }
{
    match kind {
        2 => b"insert",
        3 => b"delete",
        _ => b"search",
    }
}

// "0 not yet, 1 found, 2 none, 3 stored, 4 already there, 5 deleted, 6 absent, 7 no depth, 8 no page"; "9, "differs"". There is no other code, and no
// word for one.
pub fn code_word(code: u8) -> &'static [u8]
    ensures word { result.now ≡ code_word code }
    ensures short { length result.now ≤ 13 }
{
    match code {
        0 => b"not yet",
        1 => b"found",
        2 => b"none",
        3 => b"stored",
        4 => b"already there",
        5 => b"deleted",
        6 => b"absent",
        7 => b"no depth",
        8 => b"no page",
        9 => b"differs",
        _ => b"",
    }
}
