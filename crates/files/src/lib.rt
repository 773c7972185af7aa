// A file's state from its log: its size, and the data page of each of its 128 file pages, in a table; 0 is an unmapped
// page. And whether a file ends as an accepted volume has it. v is the volume, k the inode of a file.
#![tactic(auto)]

ghost use Rattle.std.specs.Prelude.{◌≡◌, true, false, ◌&&◌, ◌+◌, ◌-◌, ◌*◌, ◌/◌, ◌%◌, ◌≤◌, ◌<◌, eqb, length, set, replicate, get_or};
ghost use Rattle.model.specs.Lists.{is_some};
ghost use Rattle.model.specs.Words.{word, byte_at};
ghost use Rattle.model.specs.Layout.{is_directory};
ghost use Rattle.model.specs.Journal.{view};
ghost use Rattle.model.specs.Entry.{write_entry, file_entry_ok};
ghost use Rattle.model.specs.Log.{log_pages};
ghost use Rattle.model.specs.State.{file_of};
ghost use Rattle.model.specs.Accept.{log_ok, end_ok};
ghost use Rattle.inode_log.specs.Entries.{meant};
ghost use Rattle.inode_log.specs.Ready.{Ready};
ghost use Rattle.inode_log.specs.Found.{log_entries, Inside};
ghost use Rattle.files.specs.State.{file_from, filled, size_in, Applied, Folds, FoldsOver, starts_ok, zeros_at};

use inode_log::{Cursor, Entry, Log};
use layout::Sizes;

// Answers the data page that the table has for a file page, or 0 where that is unmapped.
// Example: where file page 3 is mapped to data page 70, get(table, 3) is 70.
pub fn get(table: &[u64; 128], file: usize) -> u64
    requires { file < 128 }
    ensures { result ≡ get_or table.now file 0 }
{
    table[file]
}

// Maps the file pages from file on to count data pages from page on. Answers nothing.
// Example: map_run(table, 3, 70, 2) makes element 3 a 70 and element 4 a 71.
fn map_run(table: &mut [u64; 128], file: usize, page: u64, count: usize)
    requires { (file + count ≤ 128) × (page + count ≤ 4096) }
    ensures { table.new ≡ filled (λ i. page + (i - file)) table.old file count }
{
    for i in 0..count {
        table[file + i] = page + i as u64;
    }
}

// Unmaps the file pages from file on. Answers nothing.
// Example: unmap_from(table, 126) makes elements 126 and 127 zeros.
fn unmap_from(table: &mut [u64; 128], file: usize)
    requires { file ≤ 128 }
    ensures { table.new ≡ filled (λ i. 0) table.old file (128 - file) }
{
    table[file..].fill(0);
}

// Answers whether a file's log may hold this write: "Write counts are 1 to 128, file pages end at or below 128, data
// pages lie in T+1 to P−1", and the size is at most 65,536.
// Example: with 64 pages and 8 inodes run_ok(126, 62, 2, 65536, sizes) is true, and run_ok(126, 62, 3, 65536, sizes) is false.
#[tactic(auto, unfolding(model::specs::Entry::file_entry_ok))]
fn run_ok(file: u64, page: u64, count: u64, size: u64, sizes: Sizes) -> bool
    ensures { result ≡ file_entry_ok sizes.pages sizes.inodes (write_entry file page count size) }
{
    let pages = sizes.pages as u64;
    1 <= count
        && count <= 128
        && file <= 128 - count
        && page > (sizes.inodes / 8) as u64
        && page <= pages
        && count <= pages - page
        && size <= 65536
}

// Answers whether a file's log may hold an entry.
// Example: with 64 pages and 8 inodes entry_ok(Entry::SetSize(65536), sizes) is true, and entry_ok(Entry::None, sizes) is false.
#[tactic(auto, unfolding(inode_log::specs::Entries::meant, model::specs::Entry::file_entry_ok))]
fn entry_ok(e: Entry, sizes: Sizes) -> bool
    ensures { result ≡ file_entry_ok sizes.pages sizes.inodes (meant e) }
{
    match e {
        Entry::Write {
            file,
            page,
            count,
            size,
        } => run_ok(file, page, count, size, sizes),
        Entry::SetSize(size) => size <= 65536,
        Entry::Add { .. } | Entry::Remove(_) | Entry::None => false,
    }
}

// Does to the table what an entry says, and answers the size after it. The entry is one that the log of a file may hold,
// on a volume of the most pages.
// Example: apply(Entry::SetSize(700), 1536, table) unmaps the file pages from 2 on and answers 700.
fn apply(e: Entry, size: u64, table: &mut [u64; 128]) -> u64
    requires { (file_entry_ok 4096 0 (meant e) ≡ true) × (length table.old ≡ 128) }
    ensures { Applied size table.old e result table.new }
{
    match e {
        Entry::Write {
            file,
            page,
            count,
            size: end,
        } => {
            map_run(table, file as usize, page, count as usize);
            end
        }
        Entry::SetSize(end) => {
            unmap_from(table, pages_below(end as usize));
            end
        }
        Entry::Add { .. } | Entry::Remove(_) | Entry::None => size,
    }
}

// Does to the table what the entries of a log say, and answers the size after them; none where one of them is none that a file's log may
// hold.
// Example: where a set size of 700 is the only entry of the log, fold_file(v, log, 8, table) is Some(700).
fn fold_file(v: &[u8], log: Log, inodes: usize, table: &mut [u64; 128]) -> Option<u64>
    requires { Inside (word v.now) (length v.now) log × (length table.old ≡ 128) }
    ensures { FoldsOver log.pages inodes (log_entries (word v.now) log) table.old result table.new }
{
    let sizes = Sizes {
        pages: log.pages as usize,
        inodes,
    };
    let mut c = Cursor { place: log.start };
    let mut size = 0;
    for _turn in 0..7 * log.pages {
        if c.place == log.end {
            return Some(size);
        }
        let s = inode_log::log_step(v, c);
        if !entry_ok(s.entry, sizes) {
            return None;
        }
        size = apply(s.entry, size, table);
        c = s.next;
    }
    Some(size)
}

// Reads the log of file k, whose walk is known to end, into a table of zeros, and answers the file's size; none where an entry is none
// that a file's log may hold.
// Example: where the tail of inode 3 is 0, file_state(v, 3, sizes, table) is Some(0) and leaves the table.
pub fn file_state(v: &[u8], k: usize, sizes: Sizes, table: &mut [u64; 128]) -> Option<u64>
    requires { Ready (word v.now) (length v.now) sizes.pages sizes.inodes × (is_directory (view (word v.now)) k ≡ false)
        × (k < sizes.inodes) × (table.old ≡ replicate 128 0)
        × (is_some (log_pages (view (word v.now)) sizes.pages sizes.inodes k) ≡ true) }
    ensures { Folds (log_ok (view (word v.now)) sizes.pages sizes.inodes k)
        (file_of (view (word v.now)) sizes.pages sizes.inodes k) result table.new }
{
    let log = inode_log::log_of(v, k, sizes);
    fold_file(v, log, sizes.inodes, table)
}

// Reads the log of file k, which is known to be as an accepted volume has it, into a table of zeros, and answers the file's size.
// Example: where file 3 has 514 bytes on pages 3 and 4, judged_file(v, 3, sizes, table) is 514, and table starts with 3, 4 and 0.
pub fn judged_file(v: &[u8], k: usize, sizes: Sizes, table: &mut [u64; 128]) -> u64
    requires { Ready (word v.now) (length v.now) sizes.pages sizes.inodes × (is_directory (view (word v.now)) k ≡ false)
        × (k < sizes.inodes) × (table.old ≡ replicate 128 0) × (log_ok (view (word v.now)) sizes.pages sizes.inodes k ≡ true) }
    ensures { file_from result table.new ≡ file_of (view (word v.now)) sizes.pages sizes.inodes k }
{
    file_state(v, k, sizes, table).unwrap()
}

// Answers the size that an entry leaves a file with.
// Example: size_in(Entry::SetSize(700)) is 700.
#[tactic(auto, unfolding(inode_log::specs::Entries::meant, crate::specs::State::size_in))]
fn size_in(e: Entry) -> u64
    ensures { result ≡ size_in (meant e) }
{
    match e {
        Entry::Write { size, .. } => size,
        Entry::SetSize(size) => size,
        Entry::Add { .. } | Entry::Remove(_) | Entry::None => 0,
    }
}

// Answers the size of file k, whose log is known to be as an accepted volume has it, from the last entry alone: every entry sets the
// size. An empty log is that of a file of no bytes.
// Example: where the last entry of file 3 sets the size 700, last_size(v, 3, sizes) is 700.
pub fn last_size(v: &[u8], k: usize, sizes: Sizes) -> u64
    requires { Ready (word v.now) (length v.now) sizes.pages sizes.inodes × (is_directory (view (word v.now)) k ≡ false)
        × (k < sizes.inodes) × (log_ok (view (word v.now)) sizes.pages sizes.inodes k ≡ true) }
    ensures { result ≡ (file_of (view (word v.now)) sizes.pages sizes.inodes k).size }
{
    let log = inode_log::log_of(v, k, sizes);
    if log.end == 0 {
        return 0;
    }
    let s = inode_log::log_step(v, Cursor { place: log.end - 1 });
    size_in(s.entry)
}

// Answers how many file pages start below the size.
// Example: pages_below(512) is 1 and pages_below(513) is 2.
pub fn pages_below(size: usize) -> usize
    requires { size ≤ 65536 }
    ensures { (result ≡ (size + 511) / 512) × (result ≤ 128) }
{
    (size + 511) / 512
}

// Answers whether every mapped page starts below the size: the table's elements from pages_below(size) on must be 0, and no
// others are read. The loop reads all of them, whatever it finds, so that the compiled code compares several at once.
// Example: where elements 0 and 1 alone are not 0, starts_ok(table, 513) is true and starts_ok(table, 512) is false.
fn starts_ok(table: &[u64; 128], size: usize) -> bool
    requires { size ≤ 65536 }
    ensures { result ≡ starts_ok table.now size 128 }
{
    let mut ok = true;
    for d in &table[pages_below(size)..] {
        ok &= *d == 0;
    }
    ok
}

// Answers whether count words from word w on are zero.
// Example: of the words 1, 0, 0, 7 zero_words(v, 1, 2) is true and zero_words(v, 1, 3) is false.
fn zero_words(v: &[u8], w: usize, count: usize) -> bool
    requires { 8 * (w + count) ≤ length v.now }
    ensures { result ≡ zeros_at (word v.now) w count }
{
    for i in 0..count {
        if words::word_at(v, w + i) != 0 {
            return false;
        }
    }
    true
}

// Answers whether count bytes from byte b on are zero.
// Example: of the bytes 1, 0, 0, 7 zero_bytes(v, 1, 2) is true and zero_bytes(v, 1, 3) is false.
fn zero_bytes(v: &[u8], b: usize, count: usize) -> bool
    requires { b + count ≤ length v.now }
    ensures { result ≡ zeros_at (byte_at (word v.now)) b count }
{
    v[b..b + count].iter().all(|x| *x == 0)
}

// Answers whether count bytes from byte b on are zero, which end where a word ends: the whole words among them are read as words.
// Example: of 24 bytes that are 0 but for byte 9, zeros_at(v, 10, 14) is true and zeros_at(v, 9, 15) is false.
fn zeros_at(v: &[u8], b: usize, count: usize) -> bool
    requires { (b + count ≤ length v.now) × ((b + count) % 8 ≡ 0) }
    ensures { result ≡ zeros_at (byte_at (word v.now)) b count }
{
    let left = count % 8;
    zero_words(v, (b + left) / 8, count / 8) && zero_bytes(v, b, left)
}

// Answers whether a file ends as an accepted volume has it: "no mapped page starts at or after the size, and a mapped
// page holding the size is zero from there on".
// Example: where file page 1 alone is mapped, end_ok(v, table, 700) tells whether its bytes 188 to 511 are zeros.
pub fn end_ok(v: &[u8], table: &[u64; 128], size: usize) -> bool
    requires { (size ≤ 65536) × (512 * get_or table.now (size / 512) 0 + 512 ≤ length v.now) }
    ensures { result ≡ end_ok (word v.now) (file_from size table.now) }
{
    if !starts_ok(table, size) {
        return false;
    }
    let o = size % 512;
    if o == 0 {
        return true;
    }
    let i = size / 512;
    let d = get(table, i) as usize;
    if d == 0 {
        return true;
    }
    zeros_at(v, 512 * d + o, 512 - o)
}
