// The names of folders and the inodes that they lead to: what the judge notes of them, the lowest inode that a new name may have, and the
// table of one folder's names turned to another. v is the
// volume; a name is known by its place (crate directory).
#![tactic(auto)]

ghost use Rattle.std.specs.Prelude.{◌≡◌, true, not, ◌+◌, ◌-◌, ◌*◌, ◌≤◌, ◌<◌, length};
ghost use Rattle.model.specs.Lists.{all, lowest};
ghost use Rattle.model.specs.Words.{word};
ghost use Rattle.model.specs.Layout.{is_directory};
ghost use Rattle.model.specs.Journal.{view};
ghost use Rattle.model.specs.Accept.{is_valid};
ghost use Rattle.directory.specs.Places.{Filled};
ghost use Rattle.tree.specs.Table.{noted_all, may_note};
ghost use Rattle.names.specs.Inodes.{Readable, below, valid_in, folder_in, inodes_from};
ghost use Rattle.layout.specs.Options.{to_model};
ghost use Rattle.names.specs.Listed.{Good, Turned};

use layout::{Kind, Sizes};
use tree::Tree;

// Answers whether k is one of the inodes, and valid.
// Example: of a volume just formatted with 8 inodes inode 0 is valid, and inodes 1 and 8 are not.
pub fn is_valid(v: &[u8], k: usize, inodes: usize) -> bool
    requires { Readable (word v.now) (length v.now) inodes }
    ensures { result ≡ valid_in (view (word v.now)) inodes k }
{
    k < inodes && journal::viewed(v, layout::valid_word(k)) == 1
}

// Answers the lowest inode from 1 on that is not valid, and None where there is none.
// Example: of a volume just formatted with 8 inodes free_inode(v, 8) is Some(1), and None once words 72, 80, .. 120 are 1.
pub fn free_inode(v: &[u8], inodes: u64) -> Option<u64>
    requires { Readable (word v.now) (length v.now) inodes }
    ensures { to_model result
        ≡ lowest (λ k. not (is_valid (view (word v.now)) k)) (inodes - 1) 1 }
{
    for k in 1..inodes {
        if !is_valid(v, k as usize, inodes as usize) {
            return Some(k);
        }
    }
    None
}

// Answers whether inode k, if it is valid, is a folder. Inode 0 is one whatever its type word holds.
// Example: where word 91 is 1, is_directory(v, 3) is true.
pub fn is_directory(v: &[u8], k: usize) -> bool
    requires { Readable (word v.now) (length v.now) (word v.now 1) × (k < word v.now 1) }
    ensures { result ≡ is_directory (view (word v.now)) k }
{
    k == layout::ROOT || words::word_at(v, layout::type_word(k)) == u64::from(Kind::Folder)
}

// Answers whether k is one of the inodes, valid, and a folder.
// Example: of a volume just formatted with 8 inodes it is true of inode 0 alone.
pub fn is_folder(v: &[u8], k: usize, inodes: usize) -> bool
    requires { Readable (word v.now) (length v.now) inodes × (inodes ≡ word v.now 1) }
    ensures { result ≡ folder_in (view (word v.now)) inodes k }
{
    is_valid(v, k, inodes) && is_directory(v, k)
}

// Notes the names of folder d, which stand at the first count places of a table. Answers whether each leads to an inode that may have it: a
// valid one, and no folder that has a name already.
// Example: where two names stand, which lead to inodes 5 and 3, and inode 5 is not valid, it is false.
pub fn note_names(v: &[u8], places: &[u16; 224], count: usize, d: usize, tree: &mut Tree) -> bool
    requires { Filled (word v.now) (length v.now) count places.now × (d < 256)
        × (all (below 256) (inodes_from (word v.now) places.now 0 count) ≡ true) }
    ensures { (result ≡ may_note tree.old d (inodes_from (word v.now) places.now 0 count))
        × (result ≡ true → tree.new
        ≡ noted_all tree.old d (inodes_from (word v.now) places.now 0 count)) }
{
    for p in &places[..count] {
        let k = directory::inode_at(v, usize::from(*p));
        if !tree.note(k, d) {
            return false;
        }
    }
    true
}

// Which folder's names stand in a table of places, and how many they are.
#[derive(Clone, Copy)]
pub struct FolderNames {
    pub folder: usize,
    pub count: usize,
}

// Puts the places of the names of inode d of an accepted volume into a table, none where d is no folder, and answers so.
// Example: where inode 3 is a file, list_names(v, 3, places) has 0 names.
pub fn list_names(v: &[u8], d: usize, places: &mut [u16; 224]) -> FolderNames
    requires { Good v.now × (length places.old ≡ 224) }
    ensures { Turned v.now d result places.new }
{
    let sizes = Sizes::of(v);
    if !is_folder(v, d, sizes.inodes) {
        return FolderNames {
            folder: d,
            count: 0,
        };
    }
    // an accepted volume's names are as they should be
    let count = directory::names_of(v, d, sizes, places).unwrap();
    FolderNames { folder: d, count }
}

// Makes a table that holds the names of one folder of an accepted volume hold those of inode d, none where d is no folder, and answers so.
// Nothing is read again where the table holds them already.
// Example: where the table holds the two names of inode 0, turn(v, FolderNames { folder: 0, count: 2 }, 0, places) leaves it.
pub fn turn(v: &[u8], listed: FolderNames, d: usize, places: &mut [u16; 224]) -> FolderNames
    requires { Good v.now × Turned v.now listed.folder listed places.old }
    ensures { Turned v.now d result places.new }
{
    if listed.folder == d {
        return listed;
    }
    list_names(v, d, places)
}
