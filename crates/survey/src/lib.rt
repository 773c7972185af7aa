// The judge of a volume: whether it is accepted, and the tables that its readers work from. v is the volume.
// The tables are lent: `places` gets the names of inode 0, as places of their entries, `marks` a 1 for each page in use, and `tree` the
// state and the parent of each inode. No accepted volume overflows them.
#![tactic(auto)]

ghost use Rattle.std.specs.Prelude.{◌≡◌, true, false, ◌+◌, ◌-◌, ◌<◌, leb, length, replicate};
ghost use Rattle.model.specs.Words.{word};
ghost use Rattle.model.specs.Journal.{view};
ghost use Rattle.model.specs.Accept.{is_folder};
ghost use Rattle.model.specs.Public.{is_volume};
ghost use Rattle.tree.specs.Table.{state_in};
ghost use Rattle.survey.specs.Folders.{Walks, TreeFrom, Shaped, FolderJudged, FoldersJudged};
ghost use Rattle.survey.specs.Surveyed.{Surveyed};

use layout::Sizes;
use marks::Marks;
use tree::Tree;

// Judges the log of folder d, whose walk ends, and where its names lead, and notes them. Puts the places of the names into a table, and
// answers how many; None where an entry is none of a folder's, more than 224 names stand, or one leads to an inode that is not valid or to a
// folder that has a name already. An empty log has no names; only its tail is read, for speed.
// Example: of a volume just formatted judge_folder(v, 0, places, tree) is Some(0).
fn judge_folder(v: &[u8], d: usize, places: &mut [u16; 224], tree: &mut Tree) -> Option<usize>
    requires { Walks v.now × (d < word v.now 1) × (is_folder (view (word v.now)) d ≡ true) × (length places.old ≡ 224)
        × TreeFrom v.now (word v.now 1 - (d + 1)) (d + 1) tree.old }
    ensures { FolderJudged v.now d result places.new tree.new }
{
    if journal::viewed(v, layout::tail_word(d)) == 0 {
        return Some(0);
    }
    let sizes = Sizes::of(v);
    let count = directory::names_of(v, d, sizes, places)?;
    names::note_names(v, places, count, d, tree).then_some(count)
}

// Judges all folders and notes their names, from the highest to inode 0, so that the table has the names of inode 0 in the end. Answers how
// many those are; None where a folder is not good. Inode 0 is one turn of the loop like the others, for speed: judge_folder is called at
// one place only and is inlined there.
// Example: of a volume just formatted judge_folders(v, 8, places, tree) is Some(0).
fn judge_folders(v: &[u8], inodes: usize, places: &mut [u16; 224], tree: &mut Tree) -> Option<usize>
    requires { Walks v.now × (inodes ≡ word v.now 1) × (length places.old ≡ 224)
        × TreeFrom v.now 0 (word v.now 1) tree.old }
    ensures { FoldersJudged v.now result places.new tree.new }
{
    let mut count: usize = 0;
    for d in (0..inodes).rev() {
        let is_folder = tree.state(d).is_folder();
        if is_folder {
            count = judge_folder(v, d, places, tree)?;
        }
    }
    Some(count)
}

// Judges the journal, every inode and every page of a volume, what folders' logs say apart, marks the pages in use and puts the state of
// each inode into the table of the tree; marks and tree must be zeros. Answers whether all are good.
// Example: of a volume just formatted judge_shapes(v, marks, tree) is true.
fn judge_shapes(v: &[u8], marks: &mut Marks, tree: &mut Tree) -> bool
    requires { (is_volume (length v.now) (word v.now) ≡ true) × (marks.old ≡ replicate 4096 0) × (tree.old ≡ replicate 256 0) }
    ensures { Shaped v.now result marks.new tree.new }
{
    let sizes = Sizes::of(v);
    if !journal::journal_ok(v, sizes.inodes as u64) {
        return false;
    }
    inodes::judge_inodes(v, sizes, marks, tree)
}

// Judges a volume, puts the places of the names of inode 0 into a table, marks the pages in use, and fills the table of the tree; marks and
// tree must be zeros. Answers how many names inode 0 has; None where the volume is not accepted, and then the tables hold anything.
// Example: of a volume just formatted judge(v, places, marks, tree) is Some(0).
pub fn judge(v: &[u8], places: &mut [u16; 224], marks: &mut Marks, tree: &mut Tree) -> Option<usize>
    requires { (is_volume (length v.now) (word v.now) ≡ true) × (length places.old ≡ 224)
        × (marks.old ≡ replicate 4096 0) × (tree.old ≡ replicate 256 0) }
    ensures { Surveyed v.now result places.new marks.new tree.new }
{
    if !judge_shapes(v, marks, tree) {
        return None;
    }
    let sizes = Sizes::of(v);
    let count = judge_folders(v, sizes.inodes, places, tree)?;
    tree.settle_all(sizes.inodes).then_some(count)
}
