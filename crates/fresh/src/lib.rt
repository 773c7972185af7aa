// The words of fresh data pages, laid into a lent array before they are stored: element j is word j of the pages. v is the
// volume, and the file's data pages stand in a table: entry i is the data page of file page i, and 0 says that it is unmapped.
#![tactic(auto)]

ghost use Rattle.std.specs.Prelude.{◌≡◌, ◌+◌, ◌*◌, ◌≤◌, ◌<◌, length, get_or};
ghost use Rattle.model.specs.Words.{word};
ghost use Rattle.model.specs.Calls.{pages_covered};
ghost use Rattle.contents.specs.Laid.{laid, Within};
ghost use Rattle.fresh.specs.Fresh.{written_over, zero_from, fresh_word};

// Answers how many file pages there are from the one that holds byte offset up to the one that holds byte end - 1.
// Example: pages_covered(510, 514) is 2, and pages_covered(512, 1024) is 1.
pub fn pages_covered(offset: usize, end: usize) -> usize
    requires { offset < end }
    ensures { result ≡ pages_covered offset end }
{
    (end - 1) / layout::PAGE + 1 - offset / layout::PAGE
}

// Lays the first count words of the bytes into the array, from its first element on. Answers nothing.
// Example: of 16 bytes, all 0 but byte 9, which is 1, lay_words(bytes, data, 2) makes element 0 a 0 and element 1 a 256.
fn lay_words(bytes: &[u8], data: &mut [u64], count: usize)
    requires { (8 * count ≤ length bytes.now) × (count ≤ length «data».old) }
    ensures { «data».new ≡ laid «data».old 0 (word bytes.now) 0 count }
{
    for j in 0..count {
        data[j] = words::word_at(bytes, j);
    }
}

// Lays bytes over those of the buffer, from index from on. Answers nothing.
// Example: lay_over("ab", buffer, 4) makes byte 4 of the buffer 97 and byte 5 98.
fn lay_over(bytes: &[u8], buffer: &mut [u8], from: usize)
    requires { from + length bytes.now ≤ length buffer.old }
    ensures { buffer.new ≡ laid buffer.old from (λ i. get_or bytes.now i 0) 0
        (length bytes.now) }
{
    buffer[from..from + bytes.len()].copy_from_slice(bytes)
}

// Lays the words of the file pages that a write covers into the array, from its first element on: the bytes written, and
// around them the file's own. The rest of the array keeps its values. Answers nothing.
// Example: lay_write(v, table, 510, "abcd", data) lays 128 words: byte 510 of file page 0 is "a", and byte 1 of file page 1 is "d".
pub fn lay_write(v: &[u8], table: &[u64; 128], offset: usize, bytes: &[u8], data: &mut [u64; 576])
    requires { Within (length v.now) table.now × (0 < length bytes.now) × (length bytes.now ≤ 4096)
        × (offset + length bytes.now ≤ 65536) }
    ensures { «data».new ≡ laid «data».old 0
        (fresh_word (written_over (word v.now) table.now offset bytes.now) offset) 0
        (64 * pages_covered offset (offset + length bytes.now)) }
{
    let mut buffer = [0u8; 4608];
    let count = pages_covered(offset, offset + bytes.len());
    let start = layout::PAGE * (offset / layout::PAGE);
    contents::lay_file(v, table, start, &mut buffer, layout::PAGE * count);
    lay_over(bytes, &mut buffer, offset % layout::PAGE);
    lay_words(&buffer, data, layout::PAGE_WORDS * count)
}

// Lays the words of the file page that holds a size into the array, from its first element on: the file's bytes below the
// size, then zeros. The rest of the array keeps its values. Answers nothing.
// Example: lay_cut(v, table, 700, data) lays 64 words, of which the first 188 bytes are those of file page 1.
pub fn lay_cut(v: &[u8], table: &[u64; 128], size: usize, data: &mut [u64; 64])
    requires { Within (length v.now) table.now × (size ≤ 65536) }
    ensures { «data».new ≡ laid «data».old 0
        (fresh_word (zero_from (word v.now) table.now size) size) 0 64 }
{
    let mut buffer = [0u8; 512];
    let start = layout::PAGE * (size / layout::PAGE);
    contents::lay_file(v, table, start, &mut buffer, size % layout::PAGE);
    lay_words(&buffer, data, layout::PAGE_WORDS)
}
