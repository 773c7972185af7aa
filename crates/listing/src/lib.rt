// The text that the program volume_list prints, laid into a lent buffer. Document 01, "Campsite examples", last paragraphs.
// Each function puts its bytes into the text from index at on, and answers the index behind them. v is the volume.
#![tactic(auto)]

ghost use Rattle.std.specs.Prelude.{◌≡◌, true, [], ◌∷◌, ◌++◌, ◌+◌, ◌*◌, ◌%◌, ◌≤◌, ◌<◌, length, drop};
ghost use Rattle.model.specs.Lists.{all};
ghost use Rattle.model.specs.Words.{word};
ghost use Rattle.model.specs.Layout.{root};
ghost use Rattle.model.specs.Journal.{view};
ghost use Rattle.model.specs.Listing.{decimal, first_line, name_line, refusal_line, text_of, listing};
ghost use Rattle.directory.specs.Fields.{name_at};
ghost use Rattle.directory.specs.Places.{place_ok, standing};
ghost use Rattle.names.specs.Listed.{Good, Lists};
ghost use Rattle.inodes.specs.Judged.{Served};
ghost use Rattle.stores.specs.Emitted.{Emitted};
ghost use Rattle.listing.specs.Lines.{GoodInode, GoodInodes, line_of, lines_of};

use answer::Refusal;
use layout::Sizes;
use marks::Marks;
use tree::Tree;

// The bytes of the text. No listing is longer: its first line has at most 53, and 224 names have lines of at most 50, since no total has
// more than 12 digits.
pub const TEXT_BYTES: usize = 11264;

// How many bytes volume_list takes: "at most 65,536 bytes".
const MOST_BYTES: usize = 65536;

// The byte between the parts of a line.
const SPACE: u8 = 32;

// The byte that ends a line.
const NEWLINE: u8 = 10;

// Puts one byte, and answers the index behind it.
// Example: put_byte(text, 4, 65) makes byte 4 of the text 65, and is 5.
fn put_byte(text: &mut [u8; TEXT_BYTES], at: usize, x: u8) -> usize
    requires { at + 1 ≤ 11264 }
    ensures { Emitted text.old at (x ∷ []) result text.new }
{
    text[at] = x;
    at + 1
}

// Puts the bytes of a slice, and answers the index behind them.
// Example: put_bytes(text, 4, b"free") makes bytes 4 to 7 of the text "free", and is 8.
fn put_bytes(text: &mut [u8; TEXT_BYTES], at: usize, bytes: &[u8]) -> usize
    requires { at + length bytes.now ≤ 11264 }
    ensures { Emitted text.old at bytes.now result text.new }
{
    let end = at + bytes.len();
    text[at..end].copy_from_slice(bytes);
    end
}

// Answers the last decimal digit of a number, as a byte of text.
// Example: digit(514) is 52, the byte "4".
fn digit(x: u64) -> u8
    ensures { result ≡ 48 + x % 10 }
{
    48 + (x % 10) as u8
}

// Puts a number in decimal, and answers the index behind it.
// Example: put_number(text, 4, 514) makes bytes 4 to 6 of the text "514", and is 7.
fn put_number(text: &mut [u8; TEXT_BYTES], at: usize, x: u64) -> usize
    requires { at + length (decimal x) ≤ 11264 }
    ensures { Emitted text.old at (decimal x) result text.new }
{
    if x < 10 {
        return put_byte(text, at, digit(x));
    }
    let next = put_number(text, at, x / 10);
    put_byte(text, next, digit(x))
}

// Puts a space and a number in decimal, and answers the index behind them.
// Example: put_field(text, 4, 514) makes bytes 4 to 7 of the text " 514", and is 8.
fn put_field(text: &mut [u8; TEXT_BYTES], at: usize, x: u64) -> usize
    requires { at + 1 + length (decimal x) ≤ 11264 }
    ensures { Emitted text.old at (32 ∷ decimal x) result text.new }
{
    let next = put_byte(text, at, SPACE);
    put_number(text, next, x)
}

// Puts the first line, with the count of names and of free pages, and answers the index behind it.
// Example: put_first(text, 0, 1, 10) makes the text begin "files 1 free 10" and a newline, and is 16.
fn put_first(text: &mut [u8; TEXT_BYTES], at: usize, names: u64, free: u64) -> usize
    requires { at + 13 + length (decimal names) + length (decimal free) ≤ 11264 }
    ensures { Emitted text.old at (first_line names free) result text.new }
{
    let a = put_bytes(text, at, b"files");
    let b = put_field(text, a, names);
    let c = put_bytes(text, b, b" free");
    let d = put_field(text, c, free);
    put_byte(text, d, NEWLINE)
}

// Puts the line of a refusal, with its number, and answers the index behind it.
// Example: put_refusal(text, 0, 3) makes the text begin "refused 3" and a newline, and is 10.
fn put_refusal(text: &mut [u8; TEXT_BYTES], at: usize, number: u64) -> usize
    requires { at + 9 + length (decimal number) ≤ 11264 }
    ensures { Emitted text.old at (refusal_line number) result text.new }
{
    let a = put_bytes(text, at, b"refused");
    let b = put_field(text, a, number);
    put_byte(text, b, NEWLINE)
}

// Puts the name of the entry at a place, and answers the index behind it.
// Example: where the entry at place 264 adds "A1", put_name(text, 4, v, 264) makes bytes 4 and 5 of the text "A1", and is 6.
fn put_name(text: &mut [u8; TEXT_BYTES], at: usize, v: &[u8], place: usize) -> usize
    requires { (place_ok (word v.now) (length v.now) place ≡ true) × (at + length (name_at (word v.now) (8 * place)) ≤ 11264) }
    ensures { Emitted text.old at (name_at (word v.now) (8 * place)) result text.new }
{
    let mut name = [0u8; 32];
    let n = lookup::lay_name(v, place, &mut name) as usize;
    put_bytes(text, at, &name[..n])
}

// Puts the line of the name of the entry at a place, with an inode and a size, and answers the index behind it.
// Example: where the entry at place 264 adds "A1", put_line(text, 0, v, 264, 1, 514) makes the text begin "1 514 A1" and a newline,
// and is 9.
fn put_line(
    text: &mut [u8; TEXT_BYTES],
    at: usize,
    v: &[u8],
    place: usize,
    inode: u64,
    size: u64,
) -> usize
    requires { (place_ok (word v.now) (length v.now) place ≡ true)
        × (at + 3 + length (decimal inode) + length (decimal size) + length (name_at (word v.now) (8 * place)) ≤ 11264) }
    ensures { Emitted text.old at (name_line inode size (name_at (word v.now) (8 * place)))
        result text.new }
{
    let a = put_number(text, at, inode);
    let b = put_field(text, a, size);
    let c = put_byte(text, b, SPACE);
    let d = put_name(text, c, v, place);
    put_byte(text, d, NEWLINE)
}

// Puts the line of the name of the entry at a place, which leads to an inode of a volume with so many inodes, and answers the index behind
// it. The size of a folder is what lies beneath it.
// Example: where the entry at place 264 adds "A1" to inode 1, a file of 514 bytes, put_file(text, 0, v, 264, 8) makes the text begin
// "1 514 A1" and a newline, and is 9.
fn put_file(text: &mut [u8; TEXT_BYTES], at: usize, v: &[u8], place: usize, inodes: usize) -> usize
    requires { Good v.now × (inodes ≡ word v.now 1) × (place < 65536) × (place_ok (word v.now) (length v.now) place ≡ true)
        × GoodInode (view (word v.now)) (word v.now 1) (word v.now (8 * place + 1)) × (at + length (line_of v.now place) ≤ 11264) }
    ensures { Emitted text.old at (line_of v.now place) result text.new }
{
    let inode = directory::inode_at(v, place);
    let mut places = [0u16; 224];
    let size = totals::name_total(v, inode, inodes, &mut places);
    put_line(text, at, v, place, inode as u64, size)
}

// Puts the lines of the names at these places, and answers the index behind them.
// Example: where the entries at 264 and 265 add "A1" to inode 1 and "B" to inode 2, files of 514 and 0 bytes, put_files(text, 0, v, places,
// 8) of the places 264 and 265 makes the text begin "1 514 A1", a newline, "2 0 B" and a newline, and is 15.
fn put_files(
    text: &mut [u8; TEXT_BYTES],
    at: usize,
    v: &[u8],
    places: &[u16],
    inodes: usize,
) -> usize
    requires { Good v.now × (inodes ≡ word v.now 1) × (all (place_ok (word v.now) (length v.now)) places.now ≡ true)
        × GoodInodes (view (word v.now)) (word v.now 1) (standing (word v.now) places.now)
        × (at + length (lines_of v.now (standing (word v.now) places.now)) ≤ 11264) }
    ensures { Emitted text.old at (lines_of v.now (standing (word v.now) places.now)) result
        text.new }
{
    let mut next = at;
    for place in places {
        next = put_file(text, next, v, usize::from(*place), inodes);
    }
    next
}

// Puts the text of an accepted volume from the text's start on, and answers the index behind it. The places of its count names and the
// marks of its pages in use are as the gate left them.
// Example: of the volume of case C put_text(text, v, places, marks, 1) makes the text begin "files 1 free 10", a newline, "1 514 A1" and
// a newline, and is 25.
fn put_text(
    text: &mut [u8; TEXT_BYTES],
    v: &[u8],
    places: &[u16; 224],
    marks: &Marks,
    count: usize,
) -> usize
    requires { Good v.now × Lists v.now root count places.now
        × Served (view (word v.now)) (word v.now 0) (word v.now 1) true marks.now }
    ensures { Emitted text.old 0 (text_of (view (word v.now)) (word v.now 0)
        (word v.now 1)) result text.new }
{
    let sizes = Sizes::of(v);
    let free = inodes::free_count(marks, sizes);
    let at = put_first(text, 0, count as u64, free);
    put_files(text, at, v, &places[..count], sizes.inodes)
}

// Lays what volume_list prints of a volume into the text, and answers how many bytes it is; the rest of the text keeps its bytes. v may
// be any bytes.
// Example: of the volume of case C it lays "files 1 free 10", a newline, "1 514 A1" and a newline, and answers 25; of no bytes it lays
// "refused 2" and a newline, and answers 10.
pub fn lay_listing(v: &[u8], text: &mut [u8; TEXT_BYTES]) -> usize
    requires { length text.old ≡ 11264 }
    ensures { (result ≡ length (listing v.now)) × (result ≤ 11264)
        × (text.new ≡ listing v.now ++ drop result text.old) }
{
    if MOST_BYTES < v.len() {
        return put_refusal(text, 0, Refusal::NoVolume.number());
    }
    let mut places = [0u16; 224];
    let mut marks = Marks::new();
    let mut tree = Tree::new();
    match gate::closed(v, &mut places, &mut marks, &mut tree) {
        Ok(count) => put_text(text, v, &places, &marks, count),
        Err(refusal) => put_refusal(text, 0, refusal.number()),
    }
}
