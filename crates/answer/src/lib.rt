// What the calls of the file store answer, and the number that C gets for it: a call answers `Ok` where it is done, with its number, if
// it has one to answer, and else `Err` with its refusal.
#![tactic(auto)]

ghost use Rattle.std.specs.Prelude.{◌≡◌, ◌≤◌, pos, neg_ℤ};
ghost use Rattle.answer.specs.Meaning.{meaning, done_meaning, number_of, code_of};

// Why a call refuses. specs/Meaning.antt gives document 01's number of each.
#[derive(Clone, Copy, Debug, PartialEq, Eq)]
pub enum Refusal {
    // 1: the store list to be filled has under 4,096 words, or the name buffer under 32 bytes.
    ShortMemory,
    // 2: the slice's length, word 0, 1 or 2, or format's sizes break their limits.
    NoVolume,
    // 3: the volume is otherwise not accepted.
    Damaged,
    // 4: the journal is open.
    JournalOpen,
    // 5: a name's length, or a byte in it, is not allowed, or a name to be given is "." or "..".
    BadName,
    // 6: the name is absent, the inode invalid or out of range, or k too large.
    NotThere,
    // 7: the new name stands already.
    Taken,
    // 8: over 4,096 bytes to write.
    LongWrite,
    // 9: offset and count of bytes together, or the size, are over 65,536.
    PastTheEnd,
    // 10: all inodes are valid.
    NoInode,
    // 11: it would be the 225th name.
    DirectoryFull,
    // 12: there are not enough free pages where they are needed.
    NoSpace,
    // 13: what is to be carried out is no store list for this volume.
    BadList,
    // 14: the stretches of free pages are more than the list of pairs holds.
    TooManyGaps,
    // 15: the call would take the last free page, which it keeps.
    LastPage,
    // 16: a folder where a file is wanted, or a file where a folder is; a link to a folder; a rename onto a folder, or of a folder onto
    // a name that stands.
    WrongType,
    // 17: the folder to be unlinked has names.
    NotEmpty,
    // 18: a folder would move into itself or beneath itself.
    IntoItself,
}

impl Refusal {
    // Answers the number of a refusal, by "What the screen says".
    // Example: Refusal::Damaged.number() is 3.
    pub fn number(self) -> u64
        ensures { (result ≡ number_of self) × (result ≤ 18) }
    {
        match self {
            Refusal::ShortMemory => 1,
            Refusal::NoVolume => 2,
            Refusal::Damaged => 3,
            Refusal::JournalOpen => 4,
            Refusal::BadName => 5,
            Refusal::NotThere => 6,
            Refusal::Taken => 7,
            Refusal::LongWrite => 8,
            Refusal::PastTheEnd => 9,
            Refusal::NoInode => 10,
            Refusal::DirectoryFull => 11,
            Refusal::NoSpace => 12,
            Refusal::BadList => 13,
            Refusal::TooManyGaps => 14,
            Refusal::LastPage => 15,
            Refusal::WrongType => 16,
            Refusal::NotEmpty => 17,
            Refusal::IntoItself => 18,
        }
    }

    // Answers minus the number of a refusal.
    // Example: Refusal::Damaged.code() is -3.
    fn code(self) -> i64
        ensures { result ≡ neg_ℤ (pos (number_of self)) }
    {
        -(self.number() as i64)
    }
}

// Answers what a call that answers a number answers as one number, as the C firmware gets it: the call's number, or minus the number of
// the refusal. A number too large for an i64, which no call answers, comes out as the largest i64.
// Example: code(Ok(514)) is 514, and code(Err(Refusal::NoSpace)) is -12.
pub fn code(answer: Result<u64, Refusal>) -> i64
    ensures { result ≡ code_of (meaning answer) }
{
    match answer {
        Ok(x) => i64::try_from(x).unwrap_or(i64::MAX),
        Err(refusal) => refusal.code(),
    }
}

// Answers the same of a call that answers no number, which is 0 where it is done.
// Example: done_code(Ok(())) is 0, and done_code(Err(Refusal::BadList)) is -13.
pub fn done_code(answer: Result<(), Refusal>) -> i64
    ensures { result ≡ code_of (done_meaning answer) }
{
    match answer {
        Ok(()) => 0,
        Err(refusal) => refusal.code(),
    }
}
