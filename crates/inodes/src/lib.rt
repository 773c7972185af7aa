// The judge of inodes and pages: every inode is as an accepted volume has it, and no page serves twice. v is the volume,
// whose sizes and journal were judged before. What the judge has found to serve it marks.
#![tactic(auto)]

ghost use Rattle.std.specs.Prelude.{◌≡◌, true, false, ◌&&◌, [], ◌+◌, ◌*◌, ◌/◌, ◌≤◌, ◌<◌, length, get_or, replicate};
ghost use Rattle.model.specs.Lists.{is_some, or_else};
ghost use Rattle.model.specs.Words.{word};
ghost use Rattle.model.specs.Layout.{is_directory};
ghost use Rattle.model.specs.Journal.{view};
ghost use Rattle.model.specs.Log.{log_pages};
ghost use Rattle.model.specs.State.{file_of};
ghost use Rattle.model.specs.Accept.{log_ok, end_ok};
ghost use Rattle.inode_log.specs.Ready.{Ready};
ghost use Rattle.marks.specs.Marks.{unmarked, mapped, have_marks};
ghost use Rattle.inodes.specs.Judged.{EndJudged, pages_of_file, FileJudged, StateJudged, InodeJudged, no_marks, RootJudged};
ghost use Rattle.inodes.specs.Judged.{Below, States};
ghost use Rattle.tree.specs.Node.{state_number_or};
ghost use Rattle.inodes.specs.Judged.{Inspected, unmarked_count};

use layout::{Kind, Sizes};
use marks::Marks;
use tree::{State, Tree};

// Judges the end of a file with this size and table, and marks its data pages. Answers whether the end is good and no page was marked
// before. Where the end is good, only file pages that start below the size are mapped.
// Example: of a file of size 100 on page 9 the answer is false where a byte of page 9 from byte 100 on is not 0.
fn judge_end(v: &[u8], size: usize, table: &[u64; 128], marks: &mut Marks) -> bool
    requires { (size ≤ 65536) × (512 * get_or table.now (size / 512) 0 + 512 ≤ length v.now)
        × (have_marks (mapped table.now 0 ((size + 511) / 512)) ≡ true) }
    ensures { EndJudged (word v.now) size table.now marks.old result marks.new }
{
    if !files::end_ok(v, table, size) {
        return false;
    }
    marks.take_table(&table[..files::pages_below(size)])
}

// Judges file k, which is valid, and marks its pages. Answers whether its log and its end are good and no page was
// marked before.
// Example: where a file page is mapped to a page of the file's own log, the answer is false.
fn judge_file(v: &[u8], k: usize, sizes: Sizes, marks: &mut Marks) -> bool
    requires { Ready (word v.now) (length v.now) sizes.pages sizes.inodes × (is_directory (view (word v.now)) k ≡ false) × (k < sizes.inodes) }
    ensures { FileJudged (view (word v.now)) sizes.pages sizes.inodes k marks.old result marks.new }
{
    if !inode_log::mark_log(v, k, sizes, marks) {
        return false;
    }
    let mut table = [0u64; 128];
    match files::file_state(v, k, sizes, &mut table) {
        Some(size) => judge_end(v, size as usize, &table, marks),
        None => false,
    }
}

// Judges file k, which is valid, and marks its pages. Answers State::File where it is good and no page was marked before, else None.
// Example: where a file page is mapped to a page of the file's own log, the answer is None.
fn file_state(v: &[u8], k: usize, sizes: Sizes, marks: &mut Marks) -> Option<State>
    requires { Ready (word v.now) (length v.now) sizes.pages sizes.inodes × (is_directory (view (word v.now)) k ≡ false) × (k < sizes.inodes) }
    ensures { StateJudged (log_ok (view (word v.now)) sizes.pages sizes.inodes k
        && end_ok (view (word v.now)) (file_of (view (word v.now)) sizes.pages sizes.inodes k)) marks.old
        (pages_of_file (view (word v.now)) sizes.pages sizes.inodes k) 1 (state_number_or result) marks.new }
{
    if !judge_file(v, k, sizes, marks) {
        return None;
    }
    Some(State::File)
}

// Walks through the log of folder k, which is valid, and marks its pages. Answers State::Folder where the walk ends and no page was marked
// before, else None. Its entries are judged when its names are read.
// Example: where the tail of inode 3 is 0, folder_state(v, 3, sizes, marks) is Some(State::Folder).
fn folder_state(v: &[u8], k: usize, sizes: Sizes, marks: &mut Marks) -> Option<State>
    requires { Ready (word v.now) (length v.now) sizes.pages sizes.inodes × (k < sizes.inodes) }
    ensures { StateJudged (is_some (log_pages (view (word v.now)) sizes.pages sizes.inodes k)) marks.old
        (or_else (log_pages (view (word v.now)) sizes.pages sizes.inodes k) []) 4 (state_number_or result) marks.new }
{
    if !inode_log::mark_log(v, k, sizes, marks) {
        return None;
    }
    Some(State::Folder)
}

// Judges inode k, which is not inode 0, and marks its pages. Answers its state, without names: State::Free, State::File or State::Folder where
// the inode is good and no page was marked before, else None. The type of an inode that is not valid is not read.
// Example: where word 88, the valid word of inode 3, is 0, judge_inode(v, 3, sizes, marks) is Some(State::Free); where it is 2, or where it
// is 1 and word 91, the type, is 2, None.
fn judge_inode(v: &[u8], k: usize, sizes: Sizes, marks: &mut Marks) -> Option<State>
    requires { Ready (word v.now) (length v.now) sizes.pages sizes.inodes × (0 < k) × (k < sizes.inodes) }
    ensures { InodeJudged (view (word v.now)) sizes.pages sizes.inodes k marks.old (state_number_or result) marks.new }
{
    match journal::viewed(v, layout::valid_word(k)) {
        0 => Some(State::Free),
        1 => match Kind::try_from(words::word_at(v, layout::type_word(k))) {
            Ok(Kind::File) => file_state(v, k, sizes, marks),
            Ok(Kind::Folder) => folder_state(v, k, sizes, marks),
            Err(_) => None,
        },
        _ => None,
    }
}

// Judges inode 0 and the walk of its log, and marks its pages, on marks of which none is set. Answers whether it is valid and
// the walk ends, on pages that differ. Its type is not read.
// Example: where word 64, its valid word, is 0, the answer is false.
fn judge_root(v: &[u8], sizes: Sizes, marks: &mut Marks) -> bool
    requires { Ready (word v.now) (length v.now) sizes.pages sizes.inodes × (marks.old ≡ no_marks) }
    ensures { RootJudged (view (word v.now)) sizes.pages sizes.inodes result marks.new }
{
    let valid = journal::viewed(v, layout::valid_word(layout::ROOT));
    if valid != 1 {
        return false;
    }
    inode_log::mark_log(v, layout::ROOT, sizes, marks)
}

// Judges every inode after inode 0, whose walk is good and whose pages are marked, marks their pages and puts their states into the table
// of the tree. Answers whether every inode is good, the names apart, and no page serves twice; where it answers yes it leaves the marks of
// all pages that serve.
// Example: of a volume as format leaves it the answer is true, no page is marked, and every state but that of inode 0 is State::Free.
fn judge_others(v: &[u8], sizes: Sizes, marks: &mut Marks, tree: &mut Tree) -> bool
    requires { Ready (word v.now) (length v.now) sizes.pages sizes.inodes × (0 < sizes.inodes)
        × Below (view (word v.now)) sizes.pages sizes.inodes 1 marks.old × States (view (word v.now)) 1 tree.old }
    ensures { Inspected (view (word v.now)) sizes.pages sizes.inodes result marks.new tree.new }
{
    for k in 1..sizes.inodes {
        let Some(state) = judge_inode(v, k, sizes, marks) else {
            return false;
        };
        tree.put(k, state, layout::ROOT);
    }
    true
}

// Judges every inode, what a folder's log says apart, marks the pages in use, on marks of which none is set, and puts the state of each
// inode into the table of the tree: no name is noted yet. Answers whether every inode is good and no page serves twice; every walk of a log
// ends then.
// Example: where inodes 1 and 2 are valid and page 9 is a page of both logs, the answer is false.
pub fn judge_inodes(v: &[u8], sizes: Sizes, marks: &mut Marks, tree: &mut Tree) -> bool
    requires { Ready (word v.now) (length v.now) sizes.pages sizes.inodes × (0 < sizes.inodes) × (marks.old ≡ no_marks)
        × (tree.old ≡ replicate 256 0) }
    ensures { Inspected (view (word v.now)) sizes.pages sizes.inodes result marks.new tree.new }
{
    if !judge_root(v, sizes, marks) {
        return false;
    }
    tree.put(layout::ROOT, State::FolderReached, layout::ROOT);
    judge_others(v, sizes, marks, tree)
}

// Answers whether page p is a log or data page that is not marked.
// Example: of marks that are all 0, 16 pages and 8 inodes is_unmarked(marks, 2, sizes) is true, and is_unmarked(marks, 1, sizes) is false,
// since page 1 is of the inode table.
pub fn is_unmarked(marks: &Marks, p: usize, sizes: Sizes) -> bool
    requires { (p < sizes.pages) × (sizes.pages ≤ 4096) }
    ensures { result ≡ unmarked marks.now sizes.pages sizes.inodes p }
{
    sizes.inodes / 8 < p && !marks.is_marked(p)
}

// Answers how many log and data pages are not marked. Where judge_inodes answered yes and left the marks, it is the count
// of free pages (proofs/Once.antt, `free_count_lem`).
// Example: with 16 pages and 8 inodes, of marks that are all 0 but that of page 9, free_count(marks, sizes) is 13.
pub fn free_count(marks: &Marks, sizes: Sizes) -> u64
    requires { sizes.pages ≤ 4096 }
    ensures { result ≡ unmarked_count marks.now sizes.pages sizes.inodes }
{
    let mut n: u64 = 0;
    for p in 0..sizes.pages {
        n += u64::from(is_unmarked(marks, p, sizes));
    }
    n
}
