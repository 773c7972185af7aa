// Log entries as their eight words, "unused words are written 0"; and several of them laid into a lent table, entry n from element 8 n on.
#![tactic(auto)]

ghost use Rattle.std.specs.Prelude.{◌≡◌, true, ◌+◌, ◌*◌, ◌≤◌, ◌<◌, ◌^◌, length, take};
ghost use Rattle.model.specs.Words.{word};
ghost use Rattle.model.specs.Entry.{write_words, size_words, name_words, add_words, remove_words};
ghost use Rattle.model.specs.Stretches.{stretches};
ghost use Rattle.model.specs.Calls.{stretch_entries, clean_file, clean_names};
ghost use Rattle.directory.specs.Fields.{name_at, field_at};
ghost use Rattle.directory.specs.Places.{standing, Filled};
ghost use Rattle.files.specs.State.{file_from};
ghost use Rattle.entries.specs.Table.{Holds, Put, data_page, Runs};

use inode_log::{ADD, REMOVE, SET_SIZE, WRITE};

// Answers the words of a write: count pages from file page `file` on are mapped to the data pages from `page` on, and the file has this
// size.
// Example: write_words(3, 70, 2, 2560) is 1, 3, 70, 2, 2560, 0, 0, 0.
#[tactic(auto, unfolding(model::specs::Entry::write_words))]
pub fn write_words(file: u64, page: u64, count: u64, size: u64) -> [u64; 8]
    ensures { result ≡ write_words file page count size }
{
    [WRITE, file, page, count, size, 0, 0, 0]
}

// Answers the words of a set size.
// Example: size_words(700) is 2, 700 and six zeros.
#[tactic(auto, unfolding(model::specs::Entry::size_words))]
pub fn size_words(size: u64) -> [u64; 8]
    ensures { result ≡ size_words size }
{
    [SET_SIZE, size, 0, 0, 0, 0, 0, 0]
}

// Answers the words of an entry of this kind with an inode and a name; of a name of more than 32 bytes the words have the first 32.
// Example: name_words(3, 5, "ab") is 3, 5, 2, 25185, 0, 0, 0, 0.
fn name_words(kind: u64, inode: u64, name: &[u8]) -> [u64; 8]
    ensures { result ≡ name_words kind inode name.now }
{
    let mut field = [0u8; layout::NAME_BYTES];
    let len = name.len().min(layout::NAME_BYTES);
    field[..len].copy_from_slice(&name[..len]);
    let a = words::word_at(&field, 0);
    let b = words::word_at(&field, 1);
    let c = words::word_at(&field, 2);
    let d = words::word_at(&field, 3);
    [kind, inode, name.len() as u64, a, b, c, d, 0]
}

// Answers the words of an add of a name that leads to inode.
// Example: add_words(5, "ab") is 3, 5, 2, 25185, 0, 0, 0, 0.
#[tactic(auto, unfolding(model::specs::Entry::add_words))]
pub fn add_words(inode: u64, name: &[u8]) -> [u64; 8]
    ensures { result ≡ add_words inode name.now }
{
    name_words(ADD, inode, name)
}

// Answers the words of a remove of a name.
// Example: remove_words("ab") is 4, 0, 2, 25185, 0, 0, 0, 0.
#[tactic(auto, unfolding(model::specs::Entry::remove_words))]
pub fn remove_words(name: &[u8]) -> [u64; 8]
    ensures { result ≡ remove_words name.now }
{
    name_words(REMOVE, 0, name)
}

// Makes entry n of the table the eight words e. Answers nothing.
// Example: put_entry(words, 2, &[2, 700, 0, 0, 0, 0, 0, 0]) makes element 16 a 2, element 17 a 700 and elements 18 to 23 zeros.
pub fn put_entry(words: &mut [u64], n: usize, e: &[u64; 8])
    requires { (8 * n + 8 ≤ length words.old) × (length e.now ≡ 8) }
    ensures { Put words.old words.new n e.now }
{
    let at = layout::ENTRY_WORDS * n;
    words[at..at + layout::ENTRY_WORDS].copy_from_slice(e);
}

// Reads word j of the name, one of four, of the entry at a place of the volume v, and answers it.
// Example: where the entry at place 264 adds "ab", field_word(v, 264, 0) is 25185 and field_word(v, 264, 1) is 0.
fn field_word(v: &[u8], place: usize, j: usize) -> u64
    requires { (64 * place + 64 ≤ length v.now) × (field_at (word v.now) (8 * place) ≡ true) × (j < 4) }
    ensures { result ≡ word (name_at (word v.now) (8 * place)) j }
{
    words::word_at(v, 8 * place + 3 + j)
}

// Answers the words of an add of the name, and of the inode, that the entry at a place of the volume v has.
// Example: where the entry at place 264 adds "ab" to inode 5, copied_add(v, 264) is 3, 5, 2, 25185, 0, 0, 0, 0.
fn copied_add(v: &[u8], place: usize) -> [u64; 8]
    requires { (64 * place + 64 ≤ length v.now) × (field_at (word v.now) (8 * place) ≡ true) }
    ensures { result ≡ add_words (word v.now (8 * place + 1)) (name_at (word v.now) (8 * place)) }
{
    let inode = words::word_at(v, 8 * place + 1);
    let len = words::word_at(v, 8 * place + 2);
    let a = field_word(v, place, 0);
    let b = field_word(v, place, 1);
    let c = field_word(v, place, 2);
    let d = field_word(v, place, 3);
    [ADD, inode, len, a, b, c, d, 0]
}

// Lays the entries of a directory's clean log into the table, "one add for each name, in list order", and answers how many.
// The names are those at the first count places of the table `places`.
// Example: where places 264 and 271 have "a" and "b", which lead to inodes 3 and 5, clean_names(v, places, 2, words) is 2, and the entries
// are add_words(3, "a") and add_words(5, "b").
pub fn clean_names(v: &[u8], places: &[u16; 224], count: usize, words: &mut [u64]) -> usize
    requires { Filled (word v.now) (length v.now) count places.now × (length words.old ≡ 1792) }
    ensures { Holds words.old words.new result
        (clean_names (standing (word v.now) (take count places.now))) × (result ≡ count) }
{
    for i in 0..count {
        let p = directory::place(places, i);
        put_entry(words, i, &copied_add(v, p));
    }
    count
}

// Answers how many elements of a table of pages, from element i on, are consecutive pages.
// Example: where elements 3, 4 and 5 are 70, 71 and 73, run_length(table, 3) is 2, and where element 5 is the last,
// run_length(table, 5) is 1.
fn run_length(table: &[u64], i: usize) -> usize
    requires { (i < length table.now) × (length table.now ≤ 128) }
    ensures { Runs table.now i result }
{
    let first = table[i];
    let rest = table.len() - i;
    for c in 1..rest {
        if table[i + c].checked_sub(first) != Some(c as u64) {
            return c;
        }
    }
    rest
}

// Lays writes into the table `words`, "one kind 1 entry for each longest stretch of consecutive file pages on consecutive data pages,
// ascending, with the final size", and answers how many. Element i of `table` is the data page of file page file + i, or 0 where it has
// none.
// Example: where the elements of table are 70, 71, 0 and 73, put_stretches(table, 3, 3584, words) is 2, and the entries are
// write_words(3, 70, 2, 3584) and write_words(6, 73, 1, 3584).
pub fn put_stretches(table: &[u64], file: u64, size: u64, words: &mut [u64]) -> usize
    requires { (length table.now ≤ 128) × (8 * length table.now ≤ length words.old) × (file < 2 ^ 32) }
    ensures { Holds words.old words.new result
        (stretch_entries size (stretches (data_page table.now file) (length table.now) file))
        × (result ≤ length table.now) }
{
    let len = table.len();
    let mut i = 0;
    let mut n = 0;
    // Kept: a `while`, since a turn passes a whole stretch.
    while i < len {
        let p = table[i];
        if p == 0 {
            i = i + 1;
        } else {
            let c = run_length(table, i);
            put_entry(words, n, &write_words(file + i as u64, p, c as u64, size));
            i = i + c;
            n = n + 1;
        }
    }
    n
}

// Lays the entries of a file's clean log into the table, and answers how many: the writes of its stretches, or, "with no
// mapped page, one kind 2 if the size is not 0". The table `table` has the file's pages.
// Example: where no page is mapped, clean_file(table, 0, words) is 0, and clean_file(table, 700, words) is 1 and the entry that
// of size_words(700).
pub fn clean_file(table: &[u64; 128], size: u64, words: &mut [u64]) -> usize
    requires { length words.old ≡ 1792 }
    ensures { Holds words.old words.new result (clean_file (file_from size table.now)) × (result ≤ 128) }
{
    let n = put_stretches(table, 0, size, words);
    if 0 < n {
        return n;
    }
    if size == 0 {
        return 0;
    }
    put_entry(words, 0, &size_words(size));
    1
}
