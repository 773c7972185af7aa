// The bytes beneath a folder: the sum over its names, where a file counts its size once for each name and a folder what lies beneath it. v
// is the volume, which is accepted. Two functions call each other, and the count of inodes still unvisited falls: on a way down from folder
// to folder no inode comes twice.
#![tactic(auto)]

ghost use Rattle.std.specs.Prelude.{◌≡◌, true, ◌≤◌, ◌<◌, length};
ghost use Rattle.model.specs.Lists.{all};
ghost use Rattle.model.specs.Words.{word};
ghost use Rattle.model.specs.Journal.{view};
ghost use Rattle.model.specs.Accept.{is_valid};
ghost use Rattle.directory.specs.Places.{Filled};
ghost use Rattle.names.specs.Inodes.{below, inodes_from};
ghost use Rattle.names.specs.Listed.{Good};
ghost use Rattle.totals.specs.Totals.{laid_from, InodesOf, beneath_in, counts_in};

use layout::Sizes;

// Puts the inodes that the names at the first count places of a table lead to into a table of inodes. Answers nothing.
// Example: where the two places are of names that lead to inodes 5 and 3, it makes the first bytes 5 and 3.
fn lay_inodes(v: &[u8], places: &[u16; 224], count: usize, inodes: &mut [u8; 224])
    requires { Filled (word v.now) (length v.now) count places.now
        × (all (below 256) (inodes_from (word v.now) places.now 0 count) ≡ true) }
    ensures { inodes.new
        ≡ laid_from inodes.old 0 (inodes_from (word v.now) places.now 0 count) }
{
    for (i, p) in places[..count].iter().enumerate() {
        inodes[i] = directory::inode_at(v, usize::from(*p)) as u8;
    }
}

// Puts the inodes that the names of folder d lead to into a table, in list order, and answers how many; none where d is no folder. The
// table of places is lent to work in, here and below, and holds anything then.
// Example: where two names of inode 0 lead to inodes 5 and 3, inodes_of(v, 0, places, inodes) is 2 and makes the first bytes 5 and 3.
fn inodes_of(v: &[u8], d: usize, places: &mut [u16; 224], inodes: &mut [u8; 224]) -> usize
    requires { Good v.now × (length places.old ≡ 224) × (length inodes.old ≡ 224) }
    ensures { InodesOf v.now d result inodes.new × (length places.new ≡ 224) }
{
    let count = names::list_names(v, d, places).count;
    lay_inodes(v, places, count, inodes);
    count
}

// Answers the bytes beneath folder d, where `left` inodes are still unvisited; 0 where d is no folder.
// Example: where two names of folder 2 lead to one file of 514 bytes, folder_total(v, 2, 8, places) is 1028.
#[cycle(folder_total_name_total)]
pub fn folder_total(v: &[u8], d: usize, left: usize, places: &mut [u16; 224]) -> u64
    requires { Good v.now × (left ≤ 256) × (length places.old ≡ 224) }
    ensures { (result ≡ beneath_in v.now left d) × (length places.new ≡ 224) }
{
    if left == 0 {
        return 0;
    }
    let mut inodes = [0u8; 224];
    let n = inodes_of(v, d, places, &mut inodes);
    let mut sum = 0;
    for k in &inodes[..n] {
        sum += name_total(v, usize::from(*k), left - 1, places);
    }
    sum
}

// Answers what a name that leads to inode k, a valid one, counts: the size of a file, or what lies beneath a folder.
// Example: where inode 1 is a file of 514 bytes, name_total(v, 1, 8, places) is 514.
#[cycle(folder_total_name_total)]
pub fn name_total(v: &[u8], k: usize, left: usize, places: &mut [u16; 224]) -> u64
    requires { Good v.now × (left ≤ 256) × (length places.old ≡ 224) × (k < word v.now 1)
        × (is_valid (view (word v.now)) k ≡ true) }
    ensures { (result ≡ counts_in v.now left k) × (length places.new ≡ 224) }
{
    if names::is_directory(v, k) {
        return folder_total(v, k, left, places);
    }
    files::last_size(v, k, Sizes::of(v))
}
