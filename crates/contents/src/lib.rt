// The bytes of a file, laid into a lent buffer. v is the volume, and the file's data pages stand in a table: entry i is
// the data page of file page i, and 0 says that file page i is unmapped.
#![tactic(auto)]

ghost use Rattle.std.specs.Prelude.{◌≡◌, ◌++◌, ◌+◌, ◌-◌, ◌*◌, ◌≤◌, ◌<◌, min, length, drop};
ghost use Rattle.model.specs.Lists.{values_from};
ghost use Rattle.model.specs.Words.{word};
ghost use Rattle.model.specs.State.{file_byte};
ghost use Rattle.files.specs.State.{file_from};
ghost use Rattle.contents.specs.Laid.{laid, page_byte, table_byte, Within};

// Lays the bytes of data page d from byte o of the page on into a part of a buffer; zeros where d is 0. Answers nothing.
// Example: for a part of 76 bytes lay_piece(v, 15, 0, part) lays the first 76 bytes of page 15, volume bytes 7680 to 7755, and for one of
// 4 bytes lay_piece(v, 0, 508, part) four zeros.
fn lay_piece(v: &[u8], d: usize, o: usize, part: &mut [u8])
    requires { (512 * d + 512 ≤ length v.now) × (o + length part.old ≤ 512) }
    ensures { part.new ≡ values_from (page_byte (word v.now) d) o (length part.old) }
{
    if d == 0 {
        part.fill(0);
    } else {
        let at = layout::PAGE * d + o;
        // Kept: a loop, since copy_from_slice has the archive for C want memmove from outside.
        for i in 0..part.len() {
            part[i] = v[at + i];
        }
    }
}

// Lays a file's bytes start, start + 1, .. into the buffer, from its first byte on: count bytes, a file page at a time.
// Answers nothing.
// Example: lay_file(v, table, 1020, buffer, 80) lays 4 bytes of file page 1, then 76 bytes of file page 2.
pub fn lay_file(v: &[u8], table: &[u64; 128], start: usize, buffer: &mut [u8], count: usize)
    requires { Within (length v.now) table.now × (start + count ≤ 65536) × (count ≤ length buffer.old) }
    ensures { buffer.new ≡ laid buffer.old 0 (table_byte (word v.now) table.now)
        start count }
{
    let mut at = 0;
    // Kept: a `while`, since a turn lays as many bytes as the page has there.
    while at < count {
        let x = start + at;
        let o = x % layout::PAGE;
        let n = (layout::PAGE - o).min(count - at);
        let d = files::get(table, x / layout::PAGE) as usize;
        lay_piece(v, d, o, &mut buffer[at..at + n]);
        at = at + n;
    }
}

// Lays the file's bytes from an offset on into the buffer, as many as the file has there, up to the buffer; the rest of
// the buffer keeps its bytes. Answers how many.
// Example: where size is 1100, table has 3, 0 and 15 in front and the buffer is 100 bytes long, read_into(v, table, size,
// 1020, buffer) is 80: it lays four zeros and the first 76 bytes of page 15, and leaves the last 20 bytes of the buffer.
pub fn read_into(v: &[u8], table: &[u64; 128], size: usize, offset: u64, buffer: &mut [u8]) -> usize
    requires { Within (length v.now) table.now × (size ≤ 65536) }
    ensures { (result ≡ min (length buffer.old) (size - offset))
        × (buffer.new ≡ values_from (file_byte (word v.now) (file_from size table.now)) offset result
        ++ drop result buffer.old) }
{
    if size as u64 <= offset {
        return 0;
    }
    let start = offset as usize;
    let count = (size - start).min(buffer.len());
    lay_file(v, table, start, buffer, count);
    count
}
