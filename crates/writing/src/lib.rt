// The calls that change a file's bytes and its size: write and set size. Each takes any bytes and numbers, works from the lent volume v
// alone and fills a lent store list; a refusal leaves the list as it was.
#![tactic(auto)]

ghost use Rattle.std.specs.Prelude.{◌≡◌, ◌≤◌, length};
ghost use Rattle.model.specs.Words.{word};
ghost use Rattle.model.specs.FileMap.{write, set_size};
ghost use Rattle.contents.specs.Laid.{Within};
ghost use Rattle.answer.specs.Comes.{Fills};
ghost use Rattle.writing.specs.Appends.{file_append};
ghost use Rattle.writing.specs.Kept.{cuts, Kept};

use answer::Refusal;
use append::Append;
use layout::Kind;
use marks::Marks;

// Answers an append to the log of inode k, which keeps the last free page. Its data, if there are any, are file pages from page `file` on
// of a file that has this size then.
// Example: to_file(5, 2, 1500) appends to the log of inode 5, with data from file page 2 on.
fn to_file(k: usize, file: u64, size: u64) -> Append
    ensures { result ≡ file_append k file size }
{
    Append {
        log: k,
        anew: false,
        file,
        size,
        second: layout::ROOT,
        moved: 0,
        other: 0,
        valid: 0,
        kind: Kind::File.into(),
        keeps: true,
    }
}

// Writes bytes to a file from an offset on: fills the list with the store list. The data goes to the lowest run of free pages that is long
// enough or, where there is none, to the lowest free pages. Answers the count of words filled, 0 where there are no bytes to write.
// Refusals: ShortMemory, NoVolume, Damaged, JournalOpen, NotThere, WrongType, LongWrite, PastTheEnd, NoSpace, LastPage.
// Example: where inode 1 is an empty file with a log page that has room for an entry, write(v, 1, 0, b"abcd", list) is Ok(150), and
// write(v, 1, 65533, b"abcd", list) is Err(Refusal::PastTheEnd).
pub fn write(
    v: &[u8],
    inode: u64,
    offset: u64,
    bytes: &[u8],
    list: &mut [u64],
) -> Result<u64, Refusal>
    ensures { Fills v.now list.old (write inode offset bytes.now) result list.new }
{
    if list.len() < layout::LIST_WORDS {
        return Err(Refusal::ShortMemory);
    }
    let mut marks = Marks::new();
    let mut table = [0u64; 128];
    let size = state::file(v, inode, &mut marks, &mut table)?;
    if layout::WRITE_BYTES < bytes.len() {
        return Err(Refusal::LongWrite);
    }
    if layout::FILE_BYTES < offset {
        return Err(Refusal::PastTheEnd);
    }
    let from = offset as usize;
    let end = from + bytes.len();
    if layout::FILE_BYTES < end as u64 {
        return Err(Refusal::PastTheEnd);
    }
    if bytes.len() == 0 {
        return Ok(0);
    }
    let none = [0u64; 1];
    let mut data = [0u64; 576];
    fresh::lay_write(v, &table, from, bytes, &mut data);
    let n = layout::PAGE_WORDS * fresh::pages_covered(from, end);
    let a = to_file(
        inode as usize,
        (from / layout::PAGE) as u64,
        size.max(end as u64),
    );
    append::make(v, &mut marks, a, &none[..0], &data[..n], list)
}

// Answers whether a new size lies below the size of a file and inside a mapped page of it, not at its start. The file's data pages stand
// in the table.
// Example: where file page 1 alone is mapped, cuts_page(table, 1024, 700) is true; cuts_page(table, 1024, 512), cuts_page(table, 1024, 100)
// and cuts_page(table, 600, 700) are false.
fn cuts_page(table: &[u64; 128], size: u64, new: u64) -> bool
    requires { size ≤ 65536 }
    ensures { result ≡ cuts table.now size new }
{
    new < size
        && new as usize % layout::PAGE != 0
        && files::get(table, new as usize / layout::PAGE) != 0
}

// Lays the words of the page that a new size cuts into the array, if it cuts one: the file's bytes below the size, then zeros. Answers the
// count of words laid.
// Example: where file page 1 alone is mapped, lay_kept(v, table, 1024, 700, data) is 64, and lay_kept(v, table, 1024, 512, data) is 0.
fn lay_kept(v: &[u8], table: &[u64; 128], size: u64, new: u64, data: &mut [u64; 64]) -> usize
    requires { Within (length v.now) table.now × (size ≤ 65536) × (length «data».old ≡ 64) }
    ensures { Kept (word v.now) table.now size new result «data».new }
{
    if cuts_page(table, size, new) {
        fresh::lay_cut(v, table, new as usize, data);
        return layout::PAGE_WORDS;
    }
    0
}

// Sets the size of a file: fills the list with the store list. Answers the count of words filled, 0 where the file has that size already.
// Refusals: ShortMemory, NoVolume, Damaged, JournalOpen, NotThere, WrongType, PastTheEnd, NoSpace, LastPage.
// Example: where inode 1 is a file of 1,024 bytes on two pages and its log has a page with room for two entries, set_size(v, 1, 700, list)
// is Ok(166), set_size(v, 1, 512, list) Ok(22), set_size(v, 1, 1024, list) Ok(0) and set_size(v, 1, 65537, list)
// Err(Refusal::PastTheEnd).
pub fn set_size(v: &[u8], inode: u64, size: u64, list: &mut [u64]) -> Result<u64, Refusal>
    ensures { Fills v.now list.old (set_size inode size) result list.new }
{
    if list.len() < layout::LIST_WORDS {
        return Err(Refusal::ShortMemory);
    }
    let mut marks = Marks::new();
    let mut table = [0u64; 128];
    let old = state::file(v, inode, &mut marks, &mut table)?;
    if layout::FILE_BYTES < size {
        return Err(Refusal::PastTheEnd);
    }
    if size == old {
        return Ok(0);
    }
    let mut data = [0u64; 64];
    let n = lay_kept(v, &table, old, size, &mut data);
    let e = entries::size_words(size);
    let a = to_file(inode as usize, (size as usize / layout::PAGE) as u64, size);
    append::make(v, &mut marks, a, &e, &data[..n], list)
}
