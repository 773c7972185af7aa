// The calls that store in the volume itself: format and carry out. Both take any bytes and any numbers; a refusal leaves every byte as
// it was.
#![tactic(auto)]

ghost use Rattle.std.specs.Prelude.{◌≡◌, ◌++◌, ◌+◌, ◌*◌, ◌/◌, ◌≤◌, length, drop, replicate};
ghost use Rattle.model.specs.Words.{put_word};
ghost use Rattle.model.specs.Public.{format_answer, format_volume, carry_answer, carry_volume};
ghost use Rattle.answer.specs.Meaning.{done_meaning, plain};

use answer::Refusal;

// Answers the first byte after page 0 and the inode table.
// Example: table_end(8) is 1024 and table_end(256) is 16896.
fn table_end(inodes: u64) -> usize
    requires { inodes ≤ 256 }
    ensures { result ≡ 512 * (inodes / 8 + 1) }
{
    let table = inodes as usize / 8;
    layout::PAGE * (table + 1)
}

// Stores the words of a new volume that are not 0: the two sizes, the 1 in word 2, and the 1 in word 64, by which
// inode 0 is valid. Answers nothing.
// Example: put_header(v, 16, 8) makes word 0 16, word 1 8, and words 2 and 64 1.
fn put_header(v: &mut [u8], pages: u64, inodes: u64)
    requires { 520 ≤ length v.old }
    ensures { v.new ≡ put_word (put_word (put_word (put_word v.old 0 pages) 1 inodes) 2 1) 64 1 }
{
    words::put_word(v, layout::PAGES_WORD, pages);
    words::put_word(v, layout::INODES_WORD, inodes);
    words::put_word(v, layout::KIND_WORD, 1);
    words::put_word(v, layout::valid_word(layout::ROOT), 1);
}

// Makes v a new volume with so many pages and inodes, an empty directory and no files: zeroes page 0 and the inode
// table, stores the header and leaves the other pages. Refuses by NoVolume where a volume may not have these sizes
// or v has not that many pages; v is then left as it was.
// Example: of 8,192 bytes format(v, 16, 8) is Ok(()) and zeroes bytes 0 to 1,023 but for words 0, 1, 2 and 64;
// format(v, 17, 8) is Err(Refusal::NoVolume).
pub fn format(v: &mut [u8], pages: u64, inodes: u64) -> Result<(), Refusal>
    ensures answer { done_meaning result ≡ plain (format_answer v.old pages inodes) }
    ensures bytes { v.new ≡ format_volume v.old pages inodes }
{
    if !header::sizes_fit(v.len(), pages, inodes) {
        return Err(Refusal::NoVolume);
    }
    let table = table_end(inodes);
    v[..table].fill(0);
    put_header(v, pages, inodes);
    Ok(())
}

// Carries out the first count words of a list as a store list: judges them all, and then stores in list order. Refuses
// by NoVolume where v is no volume, and by BadList where count is odd or over the list's length, a pair is neither a
// store into the volume nor a fence, or the last pair is no fence. v is then left as it was.
// Example: with the list 66, 1088, FENCE, 0 carry_out(v, list, 4) is Ok(()) and makes word 66 1088;
// carry_out(v, list, 2), carry_out(v, list, 3) and carry_out(v, list, 6) are Err(Refusal::BadList), and
// carry_out(v, list, 0) is Ok(()).
pub fn carry_out(v: &mut [u8], list: &[u64], count: u64) -> Result<(), Refusal>
    ensures answer { done_meaning result ≡ plain (carry_answer v.old list.now count) }
    ensures bytes { v.new ≡ carry_volume v.old list.now count }
{
    if !header::is_volume(v) {
        return Err(Refusal::NoVolume);
    }
    if count % 2 != 0 {
        return Err(Refusal::BadList);
    }
    if (list.len() as u64) < count {
        return Err(Refusal::BadList);
    }
    let n = count as usize;
    let part = &list[..n];
    if !pairs::list_ok(part, v.len() as u64 / 8) {
        return Err(Refusal::BadList);
    }
    pairs::store_pairs(v, part);
    Ok(())
}
