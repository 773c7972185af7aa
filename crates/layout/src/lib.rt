// Where things stand in a volume and how much there may be of them: document 01, "Volume". Nothing here looks at more than words 0 and 1.
#![tactic(auto)]

ghost use Rattle.std.specs.Prelude.{◌≡◌, ◌^◌, ◌≤◌, ◌<◌, length};
ghost use Rattle.model.specs.Words.{word};
ghost use Rattle.model.specs.Layout.{valid_word, head_word, tail_word, type_word, footer};
ghost use Rattle.layout.specs.Kind.{type_of, Decodes};

// The bytes of a page.
pub const PAGE: usize = 512;

// The words of a page.
pub const PAGE_WORDS: usize = 64;

// The bytes of an entry.
pub const ENTRY: usize = 64;

// The words of an entry.
pub const ENTRY_WORDS: usize = 8;

// The entries of a log page.
pub const PAGE_ENTRIES: usize = 7;

// The places of a log page: its seven entries and the footer. A place is a word index divided by 8, so that it fits 16 bits.
pub const PAGE_PLACES: u16 = 8;

// The place of the footer in its page.
pub const FOOTER_PLACE: u16 = 7;

// The pages that a file has at most.
pub const FILE_PAGES: usize = 128;

// The bytes that a file has at most.
pub const FILE_BYTES: u64 = 65536;

// The bytes that one write has at most.
pub const WRITE_BYTES: usize = 4096;

// The bytes that a name has at most.
pub const NAME_BYTES: usize = 32;

// The names that a directory has at most.
pub const MOST_NAMES: usize = 224;

// The inode of the folder that every other one is reached from; it is a folder whatever its type word holds.
pub const ROOT: usize = 0;

// The word that holds the page count.
pub const PAGES_WORD: usize = 0;

// The word that holds the inode count.
pub const INODES_WORD: usize = 1;

// The word that is 1 in every volume.
pub const KIND_WORD: usize = 2;

// The word that holds the journal's dequeue position.
pub const DEQUEUE_WORD: usize = 8;

// The word that holds the journal's enqueue position.
pub const ENQUEUE_WORD: usize = 9;

// The words that a store list to be filled has at least.
pub const LIST_WORDS: usize = 4096;

// The word index of a fence, in a store list.
pub const FENCE: u64 = 18446744073709551615;

// What an inode is, as its type word says.
#[derive(Clone, Copy, PartialEq, Eq)]
pub enum Kind {
    File,
    Folder,
}

// A type word that says no kind.
#[derive(Clone, Copy, PartialEq, Eq)]
pub struct UnknownKind(pub u64);

impl TryFrom<u64> for Kind {
    type Error = UnknownKind;

    ghost try_from_gives = { Decodes };

    // Answers the kind that a type word says.
    // Example: Kind::try_from(1) is Ok(Kind::Folder), and Kind::try_from(2) is Err(UnknownKind(2)).
    fn try_from(word: u64) -> Result<Kind, UnknownKind> {
        match word {
            0 => Ok(Kind::File),
            1 => Ok(Kind::Folder),
            _ => Err(UnknownKind(word)),
        }
    }
}

impl From<Kind> for u64 {
    ghost from_gives = { λ kind word. word ≡ type_of kind };

    // Answers the type word of a kind.
    // Example: u64::from(Kind::Folder) is 1.
    fn from(kind: Kind) -> u64 {
        match kind {
            Kind::File => 0,
            Kind::Folder => 1,
        }
    }
}

// The sizes of a volume.
#[derive(Clone, Copy)]
pub struct Sizes {
    pub pages: usize,
    pub inodes: usize,
}

impl Sizes {
    // Reads the sizes of a volume and answers them.
    // Example: of a volume just formatted with 16 pages and 8 inodes the sizes are 16 and 8.
    pub fn of(v: &[u8]) -> Sizes
        requires { 16 ≤ length v.now }
        ensures { (result.pages ≡ word v.now 0) × (result.inodes ≡ word v.now 1) }
    {
        Sizes {
            pages: words::word_at(v, PAGES_WORD) as usize,
            inodes: words::word_at(v, INODES_WORD) as usize,
        }
    }
}

// Kept: a function for each word of an inode, since a caller then reads as the papers do, with no number or kind of word beside the inode.

// Answers the word that says whether inode k is valid.
// Example: valid_word(1) is 72.
pub fn valid_word(k: usize) -> usize
    requires { k < 2 ^ 60 }
    ensures { result ≡ valid_word k }
{
    64 + 8 * k
}

// Answers the word that holds the head of inode k.
// Example: head_word(1) is 73.
pub fn head_word(k: usize) -> usize
    requires { k < 2 ^ 60 }
    ensures { result ≡ head_word k }
{
    65 + 8 * k
}

// Answers the word that holds the tail of inode k.
// Example: tail_word(1) is 74.
pub fn tail_word(k: usize) -> usize
    requires { k < 2 ^ 60 }
    ensures { result ≡ tail_word k }
{
    66 + 8 * k
}

// Answers the word that holds the type of inode k. It is no target of the journal, so that its view is the word as it stands.
// Example: type_word(1) is 75.
pub fn type_word(k: usize) -> usize
    requires { k < 2 ^ 60 }
    ensures { result ≡ type_word k }
{
    67 + 8 * k
}

// Answers the word of log page p that holds the link to the next page.
// Example: footer(2) is 184.
pub fn footer(p: usize) -> usize
    requires { p < 2 ^ 57 }
    ensures { result ≡ footer p }
{
    64 * p + 56
}
