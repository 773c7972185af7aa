// The eighteen calls of the file store. Each works from the lent volume v alone, takes any bytes and any numbers, and answers
// what documents 01 and 02 say; a refusal leaves every lent byte as it was. A call that changes files fills a lent store list and
// leaves the volume: carry_out stores it.
#![tactic(auto)]

ghost use Rattle.std.specs.Prelude.{◌≡◌, length};
ghost use Rattle.model.specs.FileMap.{create, create_folder, link, unlink, rename, write, set_size, clean, recover};
ghost use Rattle.model.specs.Public.{format_answer, format_volume, carry_answer, carry_volume, find_answer, free_answer, kth_name_answer};
ghost use Rattle.model.specs.Public.{kth_name_buffer, total_answer};
ghost use Rattle.model.specs.Public.{size_answer, read_answer, read_buffer, gaps_answer, gaps_list};
ghost use Rattle.answer.specs.Comes.{Fills};
ghost use Rattle.answer.specs.Meaning.{meaning, done_meaning, plain, numbered};
ghost use Rattle.gaps.specs.Gaps.{gap_of};

use answer::Refusal;
use gaps::{Gap, Gaps};
use marks::Marks;

// Makes v a new volume with so many pages and inodes, an empty directory and no files: zeroes page 0 and the inode
// table, stores the header and leaves the other pages. Refuses by NoVolume where a volume may not have these sizes
// or v has not that many pages; v is then left as it was.
// Example: of 8,192 bytes format(v, 16, 8) is Ok(()) and zeroes bytes 0 to 1,023 but for words 0, 1, 2 and 64;
// format(v, 17, 8) is Err(Refusal::NoVolume).
pub fn format(v: &mut [u8], pages: u64, inodes: u64) -> Result<(), Refusal>
    ensures answer { done_meaning result ≡ plain (format_answer v.old pages inodes) }
    ensures bytes { v.new ≡ format_volume v.old pages inodes }
{
    storing::format(v, pages, inodes)
}

// Carries out the first count words of a list as a store list: judges them all, and then stores in list order. Refuses
// by NoVolume where v is no volume, and by BadList where count is odd or over the list's length, a pair is neither a
// store into the volume nor a fence, or the last pair is no fence. v is then left as it was.
// Example: with the list 66, 1088, FENCE, 0 carry_out(v, list, 4) is Ok(()) and makes word 66 1088;
// carry_out(v, list, 2), carry_out(v, list, 3) and carry_out(v, list, 6) are Err(Refusal::BadList), and
// carry_out(v, list, 0) is Ok(()).
pub fn carry_out(v: &mut [u8], list: &[u64], count: u64) -> Result<(), Refusal>
    ensures answer { done_meaning result ≡ plain (carry_answer v.old list.now count) }
    ensures bytes { v.new ≡ carry_volume v.old list.now count }
{
    storing::carry_out(v, list, count)
}

// Makes a new, empty file with a name in a folder: fills the list with the stores that add the name and make the lowest invalid inode
// valid.
// Answers the count of words filled. No file or folder gets the name "." or "..": that is BadName, here and as the new name of link and
// rename.
// Refusals: ShortMemory, NoVolume, Damaged, JournalOpen, BadName, NotThere, Taken, WrongType, NoInode, DirectoryFull, NoSpace, LastPage.
// Example: of 16 pages just formatted with 8 inodes create(v, 0, b"A1", list) is Ok(48); carried out, "A1" leads to inode 1.
pub fn create(v: &[u8], folder: u64, name: &[u8], list: &mut [u64]) -> Result<u64, Refusal>
    ensures { Fills v.now list.old (create folder name.now) result list.new }
{
    naming::create(v, folder, name, list)
}

// Makes a new folder without names in a folder, as `create` makes a file, and with the same refusals.
// Example: of 16 pages just formatted with 8 inodes create_folder(v, 0, b"A", list) is Ok(48); carried out, "A" leads to inode 1.
pub fn create_folder(v: &[u8], folder: u64, name: &[u8], list: &mut [u64]) -> Result<u64, Refusal>
    ensures { Fills v.now list.old (create_folder folder name.now) result list.new }
{
    naming::create_folder(v, folder, name, list)
}

// Gives a file a further name: fills the list with the stores that add the new name for the inode of the old one. Answers the count of
// words filled.
// Refusals: ShortMemory, NoVolume, Damaged, JournalOpen, BadName, NotThere, Taken, WrongType, DirectoryFull, NoSpace, LastPage.
// Example: where "A1" is the only name and the log page of inode 0 has room for an entry, link(v, 0, b"A1", 0, b"A2", list) is Ok(22),
// and link(v, 0, b"A1", 0, b"A1", list) Err(Refusal::Taken).
pub fn link(
    v: &[u8],
    old_folder: u64,
    old: &[u8],
    new_folder: u64,
    new: &[u8],
    list: &mut [u64],
) -> Result<u64, Refusal>
    ensures { Fills v.now list.old
        (link old_folder old.now new_folder new.now) result list.new }
{
    naming::link(v, old_folder, old, new_folder, new, list)
}

// Takes a name away: fills the list with the stores that remove it and, where it is the last name of its file or that of a folder, make the
// inode invalid. Answers the count of words filled.
// Refusals: ShortMemory, NoVolume, Damaged, JournalOpen, BadName, NotThere, WrongType, NotEmpty, NoSpace.
// Example: where "A1" is the only name of inode 1 and the log page of inode 0 has room for an entry, unlink(v, 0, b"A1", list) is
// Ok(40).
pub fn unlink(v: &[u8], folder: u64, name: &[u8], list: &mut [u64]) -> Result<u64, Refusal>
    ensures { Fills v.now list.old (unlink folder name.now) result list.new }
{
    naming::unlink(v, folder, name, list)
}

// Gives a file or folder another name in place of one, in the same folder or in another: fills the list with the stores that remove the old
// name, add the new one for its inode and, where the new name was the last of another file, make that file's inode invalid. Nothing is
// filled where both names lead to one inode. Answers the count of words filled.
// Refusals: ShortMemory, NoVolume, Damaged, JournalOpen, BadName, NotThere, WrongType, IntoItself, DirectoryFull, NoSpace.
// Example: where "A1" is the only name and the log page of inode 0 has room for two entries, rename(v, 0, b"A1", 0, b"A2", list) is
// Ok(38), and rename(v, 0, b"A1", 0, b"A1", list) Ok(0).
pub fn rename(
    v: &[u8],
    old_folder: u64,
    old: &[u8],
    new_folder: u64,
    new: &[u8],
    list: &mut [u64],
) -> Result<u64, Refusal>
    ensures { Fills v.now list.old
        (rename old_folder old.now new_folder new.now) result list.new }
{
    naming::rename(v, old_folder, old, new_folder, new, list)
}

// Writes bytes to a file from an offset on: fills the list with the store list. The data goes to the lowest run of free pages that is long
// enough or, where there is none, to the lowest free pages. Answers the count of words filled, 0 where there are no bytes to write.
// Refusals: ShortMemory, NoVolume, Damaged, JournalOpen, NotThere, WrongType, LongWrite, PastTheEnd, NoSpace, LastPage.
// Example: where inode 1 is an empty file with a log page that has room for an entry, write(v, 1, 0, b"abcd", list) is Ok(150), and
// write(v, 1, 65533, b"abcd", list) is Err(Refusal::PastTheEnd).
pub fn write(
    v: &[u8],
    inode: u64,
    offset: u64,
    bytes: &[u8],
    list: &mut [u64],
) -> Result<u64, Refusal>
    ensures { Fills v.now list.old (write inode offset bytes.now) result list.new }
{
    writing::write(v, inode, offset, bytes, list)
}

// Sets the size of a file: fills the list with the store list. Answers the count of words filled, 0 where the file has that size already.
// Refusals: ShortMemory, NoVolume, Damaged, JournalOpen, NotThere, WrongType, PastTheEnd, NoSpace, LastPage.
// Example: where inode 1 is a file of 1,024 bytes on two pages and its log has a page with room for two entries, set_size(v, 1, 700, list)
// is Ok(166), set_size(v, 1, 512, list) Ok(22), set_size(v, 1, 1024, list) Ok(0) and set_size(v, 1, 65537, list)
// Err(Refusal::PastTheEnd).
pub fn set_size(v: &[u8], inode: u64, size: u64, list: &mut [u64]) -> Result<u64, Refusal>
    ensures { Fills v.now list.old (set_size inode size) result list.new }
{
    writing::set_size(v, inode, size, list)
}

// Fills the list that writes an inode's log anew, with the entries that its state needs and no others, and answers the count of words
// filled: 0 where the log is empty.
// Refusals: ShortMemory, NoVolume, Damaged, JournalOpen, NotThere, NoSpace.
// Example: of a volume just formatted with 8 inodes clean(v, 0, list) is Ok(0), and clean(v, 1, list) and clean(v, 8, list) are
// Err(Refusal::NotThere); where file 1 has one page, clean(v, 1, list) is Ok(40).
pub fn clean(v: &[u8], inode: u64, list: &mut [u64]) -> Result<u64, Refusal>
    ensures { Fills v.now list.old (clean inode) result list.new }
{
    cleaning::clean(v, inode, list)
}

// Fills the list that puts the old values of the journal's open entries back, and answers the count of words filled: 0 where no entry is
// open.
// Refusals: ShortMemory, NoVolume, Damaged.
// Example: of a volume just formatted recover(v, list) is Ok(0); with one entry open it is Ok(8).
pub fn recover(v: &[u8], list: &mut [u64]) -> Result<u64, Refusal>
    ensures { Fills v.now list.old recover result list.new }
{
    cleaning::recover(v, list)
}

// Looks a name up in a folder and answers its inode.
// Refusals: NoVolume, Damaged, JournalOpen, BadName, NotThere, WrongType.
// Example: where the name "A1" of inode 0 leads to inode 1, find(v, 0, b"A1") is Ok(1), find(v, 0, b"A2") Err(Refusal::NotThere) and
// find(v, 0, b"") Err(Refusal::BadName).
pub fn find(v: &[u8], folder: u64, name: &[u8]) -> Result<u64, Refusal>
    ensures { meaning result ≡ numbered (find_answer v.now folder name.now) }
{
    reading::find(v, folder, name)
}

// Answers the bytes beneath a folder: the sum over its names, of a file its size and of a folder what lies beneath it.
// Refusals: NoVolume, Damaged, JournalOpen, NotThere, WrongType.
// Example: where "A1" and "A2" of inode 0 lead to one file of 514 bytes and nothing else stands there, total(v, 0) is Ok(1028).
pub fn total(v: &[u8], folder: u64) -> Result<u64, Refusal>
    ensures { meaning result ≡ numbered (total_answer v.now folder) }
{
    reading::total(v, folder)
}

// Answers the size of a file.
// Refusals: NoVolume, Damaged, JournalOpen, NotThere, WrongType.
// Example: where inode 1 is a file of 514 bytes, size(v, 1) is Ok(514); size(v, 0) is Err(Refusal::NotThere).
pub fn size(v: &[u8], inode: u64) -> Result<u64, Refusal>
    ensures { meaning result ≡ numbered (size_answer v.now inode) }
{
    reading::size(v, inode)
}

// Lays the bytes of a file from an offset on into a buffer, as many as the file has there, up to the buffer, and answers how many; the
// rest of the buffer keeps its bytes.
// Refusals: NoVolume, Damaged, JournalOpen, NotThere, WrongType.
// Example: where inode 1 is a file of 514 bytes and the buffer has 16, read(v, 1, 508, buffer) is Ok(6) and lays bytes 508 to 513;
// read(v, 1, 514, buffer) is Ok(0).
pub fn read(v: &[u8], inode: u64, offset: u64, buffer: &mut [u8]) -> Result<u64, Refusal>
    ensures { (meaning result ≡ numbered (read_answer v.now inode offset buffer.old))
        × (buffer.new ≡ read_buffer v.now inode offset buffer.old) }
{
    reading::read(v, inode, offset, buffer)
}

// Lays the k-th name of a folder, counted from 0, into the first 32 bytes of a buffer, zeros after it, and answers its length.
// Refusals: ShortMemory, NoVolume, Damaged, JournalOpen, NotThere, WrongType.
// Example: where "A1" is the only name of inode 0, kth_name(v, 0, 0, buffer) is Ok(2) and makes the buffer begin with 65, 49 and 30
// zeros; kth_name(v, 0, 1, buffer) is Err(Refusal::NotThere).
pub fn kth_name(v: &[u8], folder: u64, k: u64, buffer: &mut [u8]) -> Result<u64, Refusal>
    ensures { (meaning result ≡ numbered (kth_name_answer v.now folder k buffer.old))
        × (buffer.new ≡ kth_name_buffer v.now folder k buffer.old) }
{
    reading::kth_name(v, folder, k, buffer)
}

// Answers the count of free pages.
// Refusals: NoVolume, Damaged, JournalOpen.
// Example: of 16 pages just formatted with 8 inodes free_count(v) is Ok(14).
pub fn free_count(v: &[u8]) -> Result<u64, Refusal>
    ensures { meaning result ≡ numbered (free_answer v.now) }
{
    reading::free_count(v)
}

// Fills a list with the gaps, the longest stretches of free pages, by ascending first page. Answers the count of gaps filled; the pairs
// behind them keep their content, and of a refusal all pairs.
// Refusals: NoVolume, Damaged, JournalOpen, TooManyGaps.
// Example: of 16 pages just formatted with 8 inodes and a list of two pairs gaps(v, list) is Ok(1), and makes the first pair page 2
// and 14 pages; with a list of no pairs it is Err(Refusal::TooManyGaps).
pub fn gaps(v: &[u8], list: &mut [Gap]) -> Result<u64, Refusal>
    ensures { (meaning result ≡ numbered (gaps_answer v.now (length list.old)))
        × (list.new ≡ gaps_list gap_of v.now list.old) }
{
    let mut marks = Marks::new();
    let n = gaps::judge(v, list.len(), &mut marks)?;
    for (i, gap) in Gaps::of(v, &marks).take(n).enumerate() {
        list[i] = gap;
    }
    Ok(n as u64)
}
