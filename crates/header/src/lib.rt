// The header of a volume: whether a slice is a volume at all. "Word 0 is P, word 1 is N, word 2 is 1."
// A volume may still be damaged: the crates above judge the rest.
#![tactic(auto)]

ghost use Rattle.std.specs.Prelude.{◌≡◌, ◌&&◌, ◌*◌, eqb, length};
ghost use Rattle.model.specs.Words.{word};
ghost use Rattle.model.specs.Layout.{sizes_ok};
ghost use Rattle.model.specs.Public.{is_volume};

// How many bytes words 0, 1 and 2 are.
const HEADER_BYTES: usize = 24;

// Answers whether a volume may have so many pages and inodes: 16 to 4,096 pages, a multiple of 8 from 8 to 256 inodes,
// and at least 4 pages more than the inode table has.
// Example: sizes_ok(16, 8) and sizes_ok(36, 256) are true; sizes_ok(15, 8), sizes_ok(16, 12) and sizes_ok(35, 256) are false.
fn sizes_ok(pages: u64, inodes: u64) -> bool
    ensures { result ≡ sizes_ok pages inodes }
{
    (16..=4096).contains(&pages)
        && (8..=256).contains(&inodes)
        && inodes % 8 == 0
        && inodes / 8 + 4 <= pages
}

// Answers whether a volume may have so many pages and inodes, and a slice of len bytes is exactly that many pages long.
// Example: sizes_fit(8192, 16, 8) is true; sizes_fit(8193, 16, 8) and sizes_fit(7680, 15, 8) are false.
pub fn sizes_fit(len: usize, pages: u64, inodes: u64) -> bool
    ensures { result ≡ sizes_ok pages inodes && eqb len (512 * pages) }
{
    sizes_ok(pages, inodes) && len as u64 == 512 * pages
}

// Answers whether v is a volume: its words 0 and 1 are sizes that a volume may have, its word 2 is 1, and it is exactly
// as long as word 0 says. v may have any length.
// Example: of 8,192 bytes whose words 0, 1 and 2 are 16, 8 and 1 it is true; of the first 8,191 of them it is false.
pub fn is_volume(v: &[u8]) -> bool
    ensures { result ≡ is_volume (length v.now) (word v.now) }
{
    if v.len() < HEADER_BYTES {
        return false;
    }
    let pages = words::word_at(v, layout::PAGES_WORD);
    let inodes = words::word_at(v, layout::INODES_WORD);
    sizes_fit(v.len(), pages, inodes) && words::word_at(v, layout::KIND_WORD) == 1
}
