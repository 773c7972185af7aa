// The state of one file of a volume that is judged first: its size and its data pages. v is the volume.
#![tactic(auto)]

ghost use Rattle.std.specs.Prelude.{◌≡◌, not, ◌||◌, leb, eqb, length, replicate};
ghost use Rattle.model.specs.Words.{word};
ghost use Rattle.model.specs.Journal.{view};
ghost use Rattle.model.specs.Accept.{is_valid};
ghost use Rattle.names.specs.Inodes.{Readable};
ghost use Rattle.names.specs.Listed.{Good};
ghost use Rattle.state.specs.Stated.{FileRead, Stated};

use answer::Refusal;
use layout::Sizes;
use marks::Marks;
use tree::Tree;

// Answers whether an inode is 6 where a file is wanted: out of range, inode 0, or not valid.
// Example: of a volume just formatted with 8 inodes it is true of every number.
fn no_file(v: &[u8], inode: u64, inodes: u64) -> bool
    requires { Readable (word v.now) (length v.now) inodes }
    ensures { result ≡ (leb inodes inode || not (is_valid (view (word v.now)) inode)) || eqb inode 0 }
{
    inode == 0 || !names::is_valid(v, inode as usize, inodes as usize)
}

// Reads the state of an inode's file of an accepted volume: table, which must be zeros, gets its data pages, 0 for a file page that is
// unmapped. Answers the file's size; refuses with NotThere where the inode is out of range, inode 0 or not valid, and with WrongType where it
// is a folder. Where it refuses, the table holds anything.
// Example: where inode 1 is a file of 514 bytes on pages 3 and 4, judged_state(v, 1, table) is Ok(514), and table starts with 3, 4 and 0.
fn judged_state(v: &[u8], inode: u64, table: &mut [u64; 128]) -> Result<u64, Refusal>
    requires { Good v.now × (table.old ≡ replicate 128 0) }
    ensures { FileRead v.now inode result table.new }
{
    let sizes = Sizes::of(v);
    if no_file(v, inode, sizes.inodes as u64) {
        return Err(Refusal::NotThere);
    }
    if names::is_directory(v, inode as usize) {
        return Err(Refusal::WrongType);
    }
    Ok(files::judged_file(v, inode as usize, sizes, table))
}

// Judges a volume, its journal and an inode, and reads the state of the inode's file: table gets its data pages, 0 for a file page
// that is unmapped, and marks, which must be zeros, a 1 for each page in use. Answers the file's size; refuses with NoVolume, Damaged,
// JournalOpen, NotThere where the inode is out of range, inode 0 or not valid, or WrongType where it is a folder. Where it refuses, the
// tables hold anything.
// Example: where inode 1 is a file of 514 bytes on pages 3 and 4, file(v, 1, marks, table) is Ok(514), table starts with 3, 4 and
// 0, and file(v, 0, marks, table) is Err(Refusal::NotThere).
pub fn file(v: &[u8], inode: u64, marks: &mut Marks, table: &mut [u64; 128]) -> Result<u64, Refusal>
    requires { (marks.old ≡ replicate 4096 0) × (table.old ≡ replicate 128 0) }
    ensures { Stated v.now inode result marks.new table.new }
{
    let mut places = [0u16; 224];
    let mut tree = Tree::new();
    gate::closed(v, &mut places, marks, &mut tree)?;
    judged_state(v, inode, table)
}
