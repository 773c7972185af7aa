// The names that a directory's log leaves standing. v is the volume, whose log pages are read as they stand; a name is known by its
// place: the first word of its add entry divided by 8. A log is read twice: an index (crate index) gets the last entry of each name,
// and then each add that is the last entry of its name stands.
#![tactic(auto)]

ghost use Rattle.std.specs.Prelude.{◌≡◌, true, ◌&&◌, ◌+◌, ◌*◌, ◌-◌, ◌≤◌, ◌<◌, leb, length, get_or};
ghost use Rattle.model.specs.Lists.{all, is_some};
ghost use Rattle.model.specs.Words.{word};
ghost use Rattle.model.specs.Layout.{is_directory, most_names};
ghost use Rattle.model.specs.Journal.{view};
ghost use Rattle.model.specs.Log.{log_pages};
ghost use Rattle.model.specs.State.{names_of};
ghost use Rattle.model.specs.Accept.{log_ok};
ghost use Rattle.inode_log.specs.Ready.{Ready};
ghost use Rattle.inode_log.specs.Found.{log_words, is_placed, Inside};
ghost use Rattle.index.specs.Index.{taken, Slots};
ghost use Rattle.directory.specs.Standing.{stands_by, places_of, EntryNoted, Indexes, Listed};
ghost use Rattle.directory.specs.Folds.{Folds, FoundLog, FoldsWith};

use inode_log::{Cursor, Entry, Log, Step};
use layout::Sizes;

// Reads the i-th place of a table and answers it.
// Example: of a table that begins 264, 271 place(places, 1) is 271.
pub fn place(places: &[u16; 224], i: usize) -> usize
    requires { i < 224 }
    ensures { (result ≡ get_or places.now i 0) × (result < 65536) }
{
    usize::from(places[i])
}

// Answers the inode that the name at place p leads to.
// Example: where word 2113 is 5, the second word of the entry at word 2112, inode_at(v, 264) is 5.
pub fn inode_at(v: &[u8], p: usize) -> usize
    requires { (8 * (8 * p) + 64 ≤ length v.now) × (p < 65536) }
    ensures { result ≡ word v.now (8 * p + 1) }
{
    words::word_at(v, 8 * p + 1) as usize
}

// Answers the place of the entry that a step handed back: the one before the next cursor. It is made wide first, for speed
// (docs/PROOFS.md, "Before a proof").
// Example: of a step whose next cursor is at place 81 it is 80, the place of the entry at word 640.
fn place_before(s: Step) -> usize
    requires { 1 ≤ s.next.place }
    ensures { result ≡ s.next.place - 1 }
{
    usize::from(s.next.place) - 1
}

// Why the names of a log are not answered.
#[derive(Clone, Copy)]
enum Misfit {
    // an entry is none that a directory's log may hold, or more names stand than a directory may have
    Bad,
    // the log adds more names than the index is to hold
    Full,
}

// Notes an entry at a place in the index of names, if it adds or removes one. Answers whether it brings a new name into it.
// Example: of an entry that adds a name to an empty index it is true, and of one that removes it false.
fn index_entry(v: &[u8], e: Entry, place: usize, index: &mut [u16]) -> bool
    requires { Slots (length v.now) index.old × (64 * place + 64 ≤ length v.now) × (place < 65536) }
    ensures { EntryNoted (word v.now) (length v.now) index.old place e result index.new }
{
    match e {
        Entry::Add { name, .. } => index::note(v, index, name, place, true),
        Entry::Remove(name) => index::note(v, index, name, place, false),
        _ => false,
    }
}

// Judges the entries of a log and notes them in an empty index of names. Fails with Full once more than most names are in it.
// Example: of an empty log it is Ok.
fn index_names(
    v: &[u8],
    log: Log,
    inodes: usize,
    index: &mut [u16],
    most: usize,
) -> Result<(), Misfit>
    requires { Inside (word v.now) (length v.now) log × (all is_placed (log_words (word v.now) log) ≡ true)
        × Slots (length v.now) index.old × (taken index.old ≡ 0) × (most + 1 < length index.old) }
    ensures { Indexes (word v.now) (length v.now) inodes most (log_words (word v.now) log)
        index.old result index.new }
{
    let mut c = Cursor { place: log.start };
    let mut count = 0;
    for _ in 0..7 * log.pages {
        if c.place == log.end {
            return Ok(());
        }
        let s = inode_log::log_step(v, c);
        if !dentry::entry_ok(s.entry, inodes) {
            return Err(Misfit::Bad);
        }
        c = s.next;
        count += usize::from(index_entry(v, s.entry, place_before(s), index));
        if most < count {
            return Err(Misfit::Full);
        }
    }
    Ok(())
}

// Answers whether an entry at a place adds a name that stands: no later entry has its name.
// Example: where the entry at place 264 adds "a" and the one at place 265 removes it, neither does.
fn stands(v: &[u8], e: Entry, place: usize, index: &[u16]) -> bool
    requires { Slots (length v.now) index.now }
    ensures { result ≡ stands_by (word v.now) index.now place e }
{
    match e {
        Entry::Add { name, .. } => index::last(v, index, name) == place,
        _ => false,
    }
}

// Puts the places of the names that stand into a table, in log order, and answers how many; None where they are more than 224.
// Example: entries at words 2112, 2120 and 2128 that add "a", add "b" and remove "a" leave one name, at place 265.
fn list_standing(v: &[u8], log: Log, index: &[u16], places: &mut [u16; 224]) -> Option<usize>
    requires { Inside (word v.now) (length v.now) log × (all is_placed (log_words (word v.now) log) ≡ true)
        × Slots (length v.now) index.now × (length places.old ≡ 224) }
    ensures { Listed (places_of (word v.now) index.now (log_words (word v.now) log)) result
        places.new }
{
    let mut c = Cursor { place: log.start };
    let mut count = 0;
    for _ in 0..7 * log.pages {
        if c.place == log.end {
            return Some(count);
        }
        let s = inode_log::log_step(v, c);
        c = s.next;
        let p = place_before(s);
        if stands(v, s.entry, p, index) {
            if count == layout::MOST_NAMES {
                return None;
            }
            places[count] = p as u16;
            count += 1;
        }
    }
    Some(count)
}

// Puts the places of the names that a log leaves standing into a table, with the help of an index of so many slots that is to hold at
// most most names. Answers how many they are.
// Example: of an empty log it is Ok(0); fold::<256>(v, log, inodes, 192, places) fails with Full where a log adds 193 different names.
fn fold<const SLOTS: usize>(
    v: &[u8],
    log: Log,
    inodes: usize,
    most: usize,
    places: &mut [u16; 224],
) -> Result<usize, Misfit>
    requires { FoundLog (word v.now) (length v.now) log × (SLOTS ≤ 65536) × (most + 1 < SLOTS) × (length places.old ≡ 224) }
    ensures { FoldsWith (word v.now) (length v.now) inodes most SLOTS log result places.new }
{
    let mut index = [0u16; SLOTS];
    index_names(v, log, inodes, &mut index, most)?;
    list_standing(v, log, &index, places).ok_or(Misfit::Bad)
}

// Puts the places of the names of directory d into a table, and answers how many. The walk of its log is known to end. None where an
// entry is none of a directory's, or more than 224 names stand. The small index serves logs that add few different names. The large one
// serves all: an accepted volume's log adds at most 14,448 different names, since each but 224 of them takes a remove too, and 4,096
// pages hold 28,672 entries.
// Example: of a volume just formatted names_of(v, 0, sizes, places) is Some(0).
pub fn names_of(v: &[u8], d: usize, sizes: Sizes, places: &mut [u16; 224]) -> Option<usize>
    requires { Ready (word v.now) (length v.now) sizes.pages sizes.inodes × (d < sizes.inodes)
        × (is_directory (view (word v.now)) d ≡ true)
        × (is_some (log_pages (view (word v.now)) sizes.pages sizes.inodes d) ≡ true) × (length places.old ≡ 224) }
    ensures { Folds (word v.now) (length v.now)
        (log_ok (view (word v.now)) sizes.pages sizes.inodes d
        && leb (length (names_of (view (word v.now)) sizes.pages sizes.inodes d)) most_names)
        (names_of (view (word v.now)) sizes.pages sizes.inodes d) result places.new }
{
    let log = inode_log::log_of(v, d, sizes);
    match fold::<256>(v, log, sizes.inodes, 192, places) {
        Ok(count) => Some(count),
        Err(Misfit::Bad) => None,
        Err(Misfit::Full) => fold::<16256>(v, log, sizes.inodes, 14448, places).ok(),
    }
}
