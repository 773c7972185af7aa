// The calls that write a log anew and that recover a volume. v is the volume; the list is filled from its start on, and a refusal leaves it
// as it was.
#![tactic(auto)]

ghost use Rattle.std.specs.Prelude.{◌≡◌, ◌≤◌, ◌<◌, length};
ghost use Rattle.model.specs.Words.{word};
ghost use Rattle.model.specs.Journal.{dequeue_word, enqueue_word, view};
ghost use Rattle.model.specs.FileMap.{clean, recover};
ghost use Rattle.model.specs.Calls.{clean_entries, old_values};
ghost use Rattle.stores.specs.Added.{Added};
ghost use Rattle.entries.specs.Table.{Holds};
ghost use Rattle.answer.specs.Comes.{Fills};
ghost use Rattle.cleaning.specs.Cleanable.{Cleanable, Checked};

use answer::Refusal;
use append::Append;
use journal::Position;
use layout::{Kind, Sizes};
use marks::Marks;
use names::FolderNames;
use tree::Tree;

// Lays the entries of a clean log of inode k into the table, and answers how many: those of a folder's names, which stand at the first
// count places, or those of a file.
// Example: where "a" and "b" are the names of inode 0, which lead to inodes 3 and 5, clean_entries(v, places, 2, 0, words) is 2, and where
// file 3 has its pages 0 and 1 on data pages 70 and 71, clean_entries(v, places, 0, 3, words) is 1.
fn clean_entries(v: &[u8], places: &[u16; 224], count: usize, k: usize, words: &mut [u64]) -> usize
    requires { Cleanable v.now count places.now k × (length words.old ≡ 1792) }
    ensures { Holds words.old words.new result
        (clean_entries (view (word v.now)) (word v.now 0) (word v.now 1) k) × (result ≤ 224) }
{
    if names::is_directory(v, k) {
        return entries::clean_names(v, places, count, words);
    }
    let sizes = Sizes::of(v);
    let mut table = [0u64; 128];
    let size = files::judged_file(v, k, sizes, &mut table);
    entries::clean_file(&table, size, words)
}

// Does what clean does of a valid inode k, whose names, if it is a folder, stand at the first count places: fills the list and answers
// the count of words filled, or refuses by NoSpace.
// Example: of a volume just formatted clean_log(v, places, marks, 0, 0, list) is Ok(0).
fn clean_log(
    v: &[u8],
    places: &[u16; 224],
    marks: &mut Marks,
    count: usize,
    k: usize,
    list: &mut [u64],
) -> Result<u64, Refusal>
    requires { Cleanable v.now count places.now k × Checked v.now list.old marks.old k }
    ensures { Fills v.now list.old (clean k) result list.new }
{
    if words::word_at(v, layout::tail_word(k)) == 0 {
        return Ok(0);
    }
    let mut words = [0u64; 1792];
    let n = layout::ENTRY_WORDS * clean_entries(v, places, count, k, &mut words);
    let none = [0u64; 1];
    let a = Append {
        log: k,
        anew: true,
        file: 0,
        size: 0,
        second: layout::ROOT,
        moved: 0,
        other: 0,
        valid: 0,
        kind: Kind::File.into(),
        keeps: false,
    };
    append::make(v, marks, a, &words[..n], &none[..0], list)
}

// Fills the list that writes an inode's log anew, with the entries that its state needs and no others, and answers the count of words
// filled: 0 where the log is empty.
// Refusals: ShortMemory, NoVolume, Damaged, JournalOpen, NotThere, NoSpace.
// Example: of a volume just formatted with 8 inodes clean(v, 0, list) is Ok(0), and clean(v, 1, list) and clean(v, 8, list) are
// Err(Refusal::NotThere); where file 1 has one page, clean(v, 1, list) is Ok(40).
pub fn clean(v: &[u8], inode: u64, list: &mut [u64]) -> Result<u64, Refusal>
    ensures { Fills v.now list.old (clean inode) result list.new }
{
    let mut places = [0u16; 224];
    let mut marks = Marks::new();
    let mut tree = Tree::new();
    let count = gate::filling(v, list.len(), &mut places, &mut marks, &mut tree)?;
    let k = inode as usize;
    let sizes = Sizes::of(v);
    if !names::is_valid(v, k, sizes.inodes) {
        return Err(Refusal::NotThere);
    }
    let root = FolderNames {
        folder: layout::ROOT,
        count: count,
    };
    let listed = names::turn(v, root, k, &mut places);
    clean_log(v, &places, &mut marks, listed.count, k, list)
}

// Puts the targets and the old values of the journal's open entries into the list, as a group, and answers the index behind it.
// Example: with dequeue 3 and enqueue 5, where words 22 to 25 are 72, 1, 66 and 1088, it puts 66, 1088, 72, 1 and is 4.
fn put_back(v: &[u8], list: &mut [u64]) -> usize
    requires { (word v.now dequeue_word < 16) × (word v.now enqueue_word < 16) × (512 ≤ length v.now) × (32 ≤ length list.old) }
    ensures { Added list.old 0 0 (old_values (word v.now)) result list.new × (result ≤ 32) }
{
    let mut p = Position::new(words::word_at(v, layout::DEQUEUE_WORD));
    let mut e: usize = 0;
    for _ in 0..journal::open_count(v) {
        e = stores::put(list, 0, e, journal::target_at(v, p), journal::old_at(v, p));
        p = p.next();
    }
    e
}

// Fills the list that puts the old values of the journal's open entries back, and answers the count of words filled: 0 where no entry is
// open.
// Refusals: ShortMemory, NoVolume, Damaged.
// Example: of a volume just formatted recover(v, list) is Ok(0); with one entry open it is Ok(8).
pub fn recover(v: &[u8], list: &mut [u64]) -> Result<u64, Refusal>
    ensures { Fills v.now list.old recover result list.new }
{
    if list.len() < layout::LIST_WORDS {
        return Err(Refusal::ShortMemory);
    }
    let mut places = [0u16; 224];
    let mut marks = Marks::new();
    let mut tree = Tree::new();
    gate::judged(v, &mut places, &mut marks, &mut tree)?;
    if !journal::is_open(v) {
        return Ok(0);
    }
    let end = put_back(v, list);
    let enqueue = words::word_at(v, layout::ENQUEUE_WORD);
    let close = [layout::DEQUEUE_WORD as u64, enqueue];
    Ok(commit::commit(v, list, end, &close) as u64)
}
