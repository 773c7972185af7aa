// The calls that read a volume. Each works from the lent volume v alone and takes any bytes and any numbers; a refusal leaves every lent
// byte as it was.
#![tactic(auto)]

ghost use Rattle.std.specs.Prelude.{◌≡◌};
ghost use Rattle.model.specs.Public.{find_answer, total_answer, free_answer, kth_name_answer, kth_name_buffer, size_answer, read_answer, read_buffer};
ghost use Rattle.model.specs.Answer.{done, first_refusal};
ghost use Rattle.names.specs.Listed.{Good};
ghost use Rattle.answer.specs.Meaning.{meaning, done_meaning, plain, numbered};
ghost use Rattle.reading.specs.Folder.{folder_first};

use answer::Refusal;
use layout::Sizes;
use marks::Marks;
use names::FolderNames;
use tree::Tree;

// Answers the count of free pages.
// Refusals: NoVolume, Damaged, JournalOpen.
// Example: of 16 pages just formatted with 8 inodes free_count(v) is Ok(14).
pub fn free_count(v: &[u8]) -> Result<u64, Refusal>
    ensures { meaning result ≡ numbered (free_answer v.now) }
{
    let mut places = [0u16; 224];
    let mut marks = Marks::new();
    let mut tree = Tree::new();
    gate::closed(v, &mut places, &mut marks, &mut tree)?;
    let sizes = Sizes::of(v);
    Ok(inodes::free_count(&marks, sizes))
}

// Looks a name up in a folder and answers its inode.
// Refusals: NoVolume, Damaged, JournalOpen, BadName, NotThere, WrongType.
// Example: where the name "A1" of inode 0 leads to inode 1, find(v, 0, b"A1") is Ok(1), find(v, 0, b"A2") Err(Refusal::NotThere) and
// find(v, 0, b"") Err(Refusal::BadName).
pub fn find(v: &[u8], folder: u64, name: &[u8]) -> Result<u64, Refusal>
    ensures { meaning result ≡ numbered (find_answer v.now folder name.now) }
{
    let mut places = [0u16; 224];
    let mut marks = Marks::new();
    let mut tree = Tree::new();
    let count = gate::closed(v, &mut places, &mut marks, &mut tree)?;
    checks::find_checks(v, folder as usize, name, &mut places, count)
}

// Refuses by NotThere where inode d is out of range or not valid, and by WrongType where it is a file.
// Example: of a volume just formatted with 8 inodes folder_checks(v, 0) is Ok(()), and folder_checks(v, 1) and folder_checks(v, 8) are
// Err(Refusal::NotThere).
fn folder_checks(v: &[u8], d: usize) -> Result<(), Refusal>
    requires { Good v.now }
    ensures { done_meaning result ≡ plain (first_refusal (folder_first v.now d) (done record {})) }
{
    let sizes = Sizes::of(v);
    if !names::is_valid(v, d, sizes.inodes) {
        return Err(Refusal::NotThere);
    }
    if !names::is_directory(v, d) {
        return Err(Refusal::WrongType);
    }
    Ok(())
}

// Lays the k-th name of a folder, counted from 0, into the first 32 bytes of a buffer, zeros after it, and answers its length.
// Refusals: ShortMemory, NoVolume, Damaged, JournalOpen, NotThere, WrongType.
// Example: where "A1" is the only name of inode 0, kth_name(v, 0, 0, buffer) is Ok(2) and makes the buffer begin with 65, 49 and 30
// zeros; kth_name(v, 0, 1, buffer) is Err(Refusal::NotThere).
pub fn kth_name(v: &[u8], folder: u64, k: u64, buffer: &mut [u8]) -> Result<u64, Refusal>
    ensures { (meaning result ≡ numbered (kth_name_answer v.now folder k buffer.old))
        × (buffer.new ≡ kth_name_buffer v.now folder k buffer.old) }
{
    if buffer.len() < layout::NAME_BYTES {
        return Err(Refusal::ShortMemory);
    }
    let mut places = [0u16; 224];
    let mut marks = Marks::new();
    let mut tree = Tree::new();
    let count = gate::closed(v, &mut places, &mut marks, &mut tree)?;
    let d = folder as usize;
    folder_checks(v, d)?;
    let root = FolderNames {
        folder: layout::ROOT,
        count: count,
    };
    let listed = names::turn(v, root, d, &mut places);
    if listed.count as u64 <= k {
        return Err(Refusal::NotThere);
    }
    let place = directory::place(&places, k as usize);
    Ok(lookup::lay_name(v, place, buffer))
}

// Answers the bytes beneath a folder: the sum over its names, of a file its size and of a folder what lies beneath it.
// Refusals: NoVolume, Damaged, JournalOpen, NotThere, WrongType.
// Example: where "A1" and "A2" of inode 0 lead to one file of 514 bytes and nothing else stands there, total(v, 0) is Ok(1028).
pub fn total(v: &[u8], folder: u64) -> Result<u64, Refusal>
    ensures { meaning result ≡ numbered (total_answer v.now folder) }
{
    let mut places = [0u16; 224];
    let mut marks = Marks::new();
    let mut tree = Tree::new();
    gate::closed(v, &mut places, &mut marks, &mut tree)?;
    let d = folder as usize;
    folder_checks(v, d)?;
    let sizes = Sizes::of(v);
    Ok(totals::folder_total(v, d, sizes.inodes, &mut places))
}

// Answers the size of a file.
// Refusals: NoVolume, Damaged, JournalOpen, NotThere, WrongType.
// Example: where inode 1 is a file of 514 bytes, size(v, 1) is Ok(514); size(v, 0) is Err(Refusal::NotThere).
pub fn size(v: &[u8], inode: u64) -> Result<u64, Refusal>
    ensures { meaning result ≡ numbered (size_answer v.now inode) }
{
    let mut marks = Marks::new();
    let mut table = [0u64; 128];
    state::file(v, inode, &mut marks, &mut table)
}

// Lays the bytes of a file from an offset on into a buffer, as many as the file has there, up to the buffer, and answers how many; the
// rest of the buffer keeps its bytes.
// Refusals: NoVolume, Damaged, JournalOpen, NotThere, WrongType.
// Example: where inode 1 is a file of 514 bytes and the buffer has 16, read(v, 1, 508, buffer) is Ok(6) and lays bytes 508 to 513;
// read(v, 1, 514, buffer) is Ok(0).
pub fn read(v: &[u8], inode: u64, offset: u64, buffer: &mut [u8]) -> Result<u64, Refusal>
    ensures { (meaning result ≡ numbered (read_answer v.now inode offset buffer.old))
        × (buffer.new ≡ read_buffer v.now inode offset buffer.old) }
{
    let mut marks = Marks::new();
    let mut table = [0u64; 128];
    let size = state::file(v, inode, &mut marks, &mut table)?;
    Ok(contents::read_into(v, &table, size as usize, offset, buffer) as u64)
}
