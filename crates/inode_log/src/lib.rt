// An inode's log: the walk through its pages, which marks them and tells whether it ends, and then the log read entry by entry. v is the
// volume, read as it stands: a log's head and tail come from the view, and its pages lie past every word that the view puts back
// (proofs/Viewed.antt). Page numbers, places and steps are 16-bit numbers, since a volume has at most 4,096 pages; a number that the
// volume holds is judged as the 64-bit number that it is before it is narrowed.
#![tactic(auto)]

ghost use Rattle.std.specs.Prelude.{◌≡◌, true, ◌+◌, ◌*◌, ◌≤◌, ◌<◌, length};
ghost use Rattle.model.specs.Lists.{is_some};
ghost use Rattle.model.specs.Words.{word};
ghost use Rattle.model.specs.Layout.{in_pages};
ghost use Rattle.model.specs.Journal.{view};
ghost use Rattle.model.specs.Log.{walk, log_pages};
ghost use Rattle.marks.specs.Marks.{Walked};
ghost use Rattle.inode_log.specs.Entries.{name_in, entry_in};
ghost use Rattle.inode_log.specs.Steps.{landing, step_at};
ghost use Rattle.inode_log.specs.Ready.{Ready};
ghost use Rattle.inode_log.specs.Found.{LogOf};

use layout::Sizes;
use marks::Marks;

// The kind of a write, as the first word of an entry holds it.
pub const WRITE: u64 = 1;

// The kind of a set size.
pub const SET_SIZE: u64 = 2;

// The kind of an add.
pub const ADD: u64 = 3;

// The kind of a remove.
pub const REMOVE: u64 = 4;

// Where a reader of a log stands, as a place: an entry, or the footer after a page's last entry. A place is a word index divided by 8.
#[derive(Clone, Copy)]
pub struct Cursor {
    pub place: u16,
}

// A name as an entry holds it: its length, and its bytes as four words, filled up with zeros.
#[derive(Clone, Copy)]
pub struct Name {
    pub len: u64,
    pub first: u64,
    pub second: u64,
    pub third: u64,
    pub fourth: u64,
}

// An entry, each kind with its own fields. specs/Entries.antt gives the model's entry of each case (`meant`).
#[derive(Clone, Copy)]
pub enum Entry {
    // count data pages from page on become the file pages from file on, and size the file's size
    Write {
        file: u64,
        page: u64,
        count: u64,
        size: u64,
    },
    // the file's size, after which its pages are unmapped
    SetSize(u64),
    // a name that leads to inode
    Add {
        inode: u64,
        name: Name,
    },
    // a name that is taken out
    Remove(Name),
    // no kind of entry
    None,
}

// What a step hands back: the entry, and the cursor after it.
#[derive(Clone, Copy)]
pub struct Step {
    pub entry: Entry,
    pub next: Cursor,
}

// The log of an inode: the places at which it starts and ends, and the volume's page count. It has at most 7 entries for each page.
#[derive(Clone, Copy)]
pub struct Log {
    pub start: u16,
    pub end: u16,
    pub pages: u16,
}

// Answers whether a number that the volume holds is the number of a log or data page. It is judged as the 64-bit number that it is; only
// a number that is found good may be narrowed.
// Example: with 64 pages and 8 inodes is_page(5, sizes) is true, and is_page(1, sizes), is_page(64, sizes) and is_page(65541, sizes) are
// false.
#[tactic(auto, unfolding(model::specs::Layout::in_pages))]
fn is_page(x: u64, sizes: Sizes) -> bool
    ensures { result ≡ in_pages sizes.pages sizes.inodes x }
{
    x > (sizes.inodes / 8) as u64 && x < sizes.pages as u64
}

// Walks through a log, from page head through the footers to page last, and marks its pages. Answers whether the walk ends, inside the
// log and data pages, and none of its pages was marked before. The head is known to be a log or data page; each footer is judged before it
// is narrowed.
// Example: of marks that are all 0, where there are 64 pages and 8 inodes and the footer of page 10 is 12, walk(v, 10, 12, sizes, marks)
// marks 10 and 12 and is true; where it is 10, 64 or 65548, it is false.
fn walk(v: &[u8], head: u16, last: u16, sizes: Sizes, marks: &mut Marks) -> bool
    requires { (512 * sizes.pages ≤ length v.now) × (sizes.pages ≤ 4096) × (in_pages sizes.pages sizes.inodes head ≡ true) }
    ensures { Walked (walk (word v.now) sizes.pages sizes.inodes sizes.pages head last) marks.old result marks.new }
{
    let mut p = head;
    for _turn in 0..sizes.pages {
        if !marks.take(p as usize) {
            return false;
        }
        if p == last {
            return true;
        }
        let next = words::word_at(v, layout::footer(p as usize));
        if is_page(next, sizes) {
            p = next as u16;
        } else {
            return false;
        }
    }
    false
}

// Walks through the log of inode k, whose head and tail are read with the journal's open entries put back, and marks its pages. Answers
// whether its tail is right, its walk ends and none of its pages was marked before. An empty log has no pages, and its head is not read.
// Head and tail's page are judged before they are narrowed.
// Example: of marks that are all 0, where inode 3 has head 10 and tail 5248, mark_log(v, 3, sizes, marks) marks page 10 and is true; where
// its tail is 5120, it is false, since no entry of page 10 stands before that tail.
pub fn mark_log(v: &[u8], k: usize, sizes: Sizes, marks: &mut Marks) -> bool
    requires { Ready (word v.now) (length v.now) sizes.pages sizes.inodes × (64 * k + 576 ≤ length v.now) }
    ensures { Walked (log_pages (view (word v.now)) sizes.pages sizes.inodes k) marks.old result marks.new }
{
    let tail = journal::viewed(v, layout::tail_word(k));
    if tail == 0 {
        return true;
    }
    if tail % 64 != 0 || tail % 512 == 0 {
        return false;
    }
    let last = tail / 512;
    if is_page(last, sizes) {
        let head = journal::viewed(v, layout::head_word(k));
        if is_page(head, sizes) {
            return walk(v, head as u16, last as u16, sizes, marks);
        }
        return false;
    }
    false
}

// Answers the log of inode k, whose walk is known to end, so that the places at which it starts and ends fit 16 bits. Head and tail are
// read with the journal's open entries put back; the head of an empty log is not read.
// Example: where inode 3 has head 10 and tail 5248, log_of(v, 3, sizes) starts at place 80 and ends at place 82; where its tail is 0, it
// starts and ends at place 0.
pub fn log_of(v: &[u8], k: usize, sizes: Sizes) -> Log
    requires { Ready (word v.now) (length v.now) sizes.pages sizes.inodes × (64 * k + 576 ≤ length v.now)
        × (is_some (log_pages (view (word v.now)) sizes.pages sizes.inodes k) ≡ true) }
    ensures { LogOf (word v.now) (length v.now) sizes.pages sizes.inodes k result }
{
    let pages = sizes.pages as u16;
    let tail = journal::viewed(v, layout::tail_word(k));
    if tail == 0 {
        return Log {
            start: 0,
            end: 0,
            pages,
        };
    }
    let head = journal::viewed(v, layout::head_word(k));
    Log {
        start: layout::PAGE_PLACES * (head as u16),
        end: (tail / 64) as u16,
        pages,
    }
}

// Reads the name of the entry that a part of the volume starts with, and answers it.
// Example: of a part whose words 2 to 6 are 2, 25185, 0, 0 and 0 it is the name "ab".
#[tactic(auto, unfolding(crate::specs::Entries::name_in))]
fn name_of(part: &[u8]) -> Name
    requires { 64 ≤ length part.now }
    ensures { result ≡ name_in (word part.now) 0 }
{
    Name {
        len: words::word_at(part, 2),
        first: words::word_at(part, 3),
        second: words::word_at(part, 4),
        third: words::word_at(part, 5),
        fourth: words::word_at(part, 6),
    }
}

// Reads the entry that a part of the volume starts with, from its own 64 bytes, and answers it.
// Example: of a part that starts with the words 2 and 700, entry_of(part) is Entry::SetSize(700).
#[tactic(auto, unfolding(crate::specs::Entries::entry_in))]
fn entry_of(part: &[u8]) -> Entry
    requires { 64 ≤ length part.now }
    ensures { result ≡ entry_in (word part.now) 0 }
{
    match words::word_at(part, 0) {
        WRITE => Entry::Write {
            file: words::word_at(part, 1),
            page: words::word_at(part, 2),
            count: words::word_at(part, 3),
            size: words::word_at(part, 4),
        },
        SET_SIZE => Entry::SetSize(words::word_at(part, 1)),
        ADD => Entry::Add {
            inode: words::word_at(part, 1),
            name: name_of(part),
        },
        REMOVE => Entry::Remove(name_of(part)),
        _ => Entry::None,
    }
}

// Answers the place of the entry at a cursor: at a footer it is the first place of the next page, which the walk has judged.
// Example: land(v, 81) is 81, and where word 696, the footer of page 10, is 12, land(v, 87) is 96.
#[tactic(auto, unfolding(crate::specs::Steps::landing))]
fn land(v: &[u8], from: u16) -> u16
    requires { (64 * from + 8 ≤ length v.now) × (landing (word v.now) from < 32768) }
    ensures { result ≡ landing (word v.now) from }
{
    if from % layout::PAGE_PLACES == layout::FOOTER_PLACE {
        let next = words::word_at(v, layout::ENTRY_WORDS * usize::from(from));
        return layout::PAGE_PLACES * (next as u16);
    }
    from
}

// Reads the entry at a cursor, and answers it with the cursor after it.
// Example: where words 640 and 641 are 2 and 700, log_step(v, Cursor { place: 80 }) has the entry Entry::SetSize(700) and the next
// cursor at place 81.
pub fn log_step(v: &[u8], c: Cursor) -> Step
    requires { (64 * c.place + 8 ≤ length v.now) × (64 * landing (word v.now) c.place + 64 ≤ length v.now)
        × (landing (word v.now) c.place < 32768) }
    ensures { result ≡ step_at (word v.now) c.place }
{
    let from = c.place;
    let place = land(v, from);
    let b = layout::ENTRY * usize::from(place);
    let e = entry_of(&v[b..]);
    Step {
        entry: e,
        next: Cursor { place: place + 1 },
    }
}
