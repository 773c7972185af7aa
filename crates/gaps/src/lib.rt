// The gaps of a volume (document 02, order 1): its longest stretches of free pages, found in the marks that the judge left.
#![tactic(auto)]

ghost use Rattle.std.specs.Prelude.{◌≡◌, ◌+◌, ◌*◌, ◌/◌, ◌≤◌, ◌<◌, length, map, set, replicate};
ghost use Rattle.model.specs.Words.{word};
ghost use Rattle.model.specs.Public.{gaps_answer, gaps_words};
ghost use Rattle.marks.specs.Marks.{unmarked};
ghost use Rattle.answer.specs.Meaning.{meaning, numbered};
ghost use Rattle.std.specs.Iterator.{YieldsFirst, item_count};
ghost use Rattle.gaps.specs.Gaps.{Runs, gap_of, gap_end, gaps_left, gaps_ahead, EndBy, Judged};

use answer::Refusal;
use layout::Sizes;
use marks::Marks;
use tree::Tree;

// A gap: the first page of a longest stretch of free pages, and its length.
#[derive(Clone, Copy)]
pub struct Gap {
    pub first: u64,
    pub length: u64,
}

// Answers how many pages from page p on are not marked, up to the first that is.
// Example: of 16 pages, 8 inodes and marks that are all 0 but that of page 4, run_length(marks, sizes, 2) is 2, run_length(marks, sizes, 4)
// 0 and run_length(marks, sizes, 5) 11.
fn run_length(marks: &Marks, sizes: Sizes, p: usize) -> usize
    requires { (p ≤ sizes.pages) × (sizes.pages ≤ 4096) }
    ensures { Runs (unmarked marks.now sizes.pages sizes.inodes) sizes.pages p result }
{
    for q in p..sizes.pages {
        if !inodes::is_unmarked(marks, q, sizes) {
            return q - p;
        }
    }
    sizes.pages - p
}

// The gaps from page `from` on, one after the other by ascending first page; the marks show which pages are in use.
#[derive(Drop)]
pub struct Gaps<'a> {
    marks: &'a Marks,
    sizes: Sizes,
    from: usize,
    ghost few: { sizes.pages ≤ 4096 },
}

impl<'a> Gaps<'a> {
    // Answers the gaps of a volume, from its first page on.
    // Example: of 16 pages, 8 inodes and marks that are all 0 but that of page 4 they are (2, 2) and (5, 11).
    pub fn of(v: &[u8], marks: &'a Marks) -> Gaps<'a>
        requires { (16 ≤ length v.now) × (word v.now 0 ≤ 4096) }
        ensures { gaps_ahead result.marks.now result.sizes result.from ≡ map gap_of (gaps_left v.now marks.now 0) }
    {
        Gaps {
            marks,
            sizes: Sizes::of(v),
            from: 0,
        }
    }

    // Answers the gaps of a volume behind a gap, from the page on that follows it. The gap may have no pages, and may be a part of one.
    // Example: of 16 pages, 8 inodes and marks that are all 0 but that of page 4 the gap behind (2, 2) is (5, 11), those behind (0, 0) are
    // (2, 2) and (5, 11), the one behind (5, 3) is (8, 8), and there is none behind (5, 11).
    pub fn behind(v: &[u8], marks: &'a Marks, gap: Gap) -> Gaps<'a>
        requires { (16 ≤ length v.now) × (word v.now 0 ≤ 4096) × (gap.first + gap.length ≤ 4096) }
        ensures ahead { gaps_ahead result.marks.now result.sizes result.from ≡ map gap_of (gaps_left v.now marks.now (gap_end gap)) }
        ensures inside { EndBy (word v.now 0) (gaps_ahead result.marks.now result.sizes result.from) }
    {
        let from = gap.first + gap.length;
        Gaps {
            marks,
            sizes: Sizes::of(v),
            from: from as usize,
        }
    }
}

impl<'a> Iterator for Gaps<'a> {
    type Item = Gap;

    ghost next_gives = { YieldsFirst (λ g. gaps_ahead g.marks.now g.sizes g.from) };

    ghost remaining = { item_count (λ g. gaps_ahead g.marks.now g.sizes g.from) };

    // Answers the next gap, the first one from page `from` on, and goes on behind it.
    // Example: of 16 pages, 8 inodes and marks that are all 0 but that of page 4 it is (2, 2), then (5, 11), and then there is none.
    fn next(&mut self) -> Option<Gap> {
        let first = space::next_free(self.marks, self.sizes, self.from)?;
        let length = run_length(self.marks, self.sizes, first);
        self.from = first + length;
        Some(Gap {
            first: first as u64,
            length: length as u64,
        })
    }
}

// Judges a volume whose gaps are wanted in a list of `room` pairs, and marks its pages in use. Answers the count of gaps, or refuses by
// NoVolume, Damaged, JournalOpen or TooManyGaps.
// Example: of 16 pages just formatted with 8 inodes judge(v, 1, marks) is Ok(1), and judge(v, 0, marks) Err(Refusal::TooManyGaps).
pub fn judge(v: &[u8], room: usize, marks: &mut Marks) -> Result<usize, Refusal>
    requires { marks.old ≡ replicate 4096 0 }
    ensures { Judged v.now room result marks.new }
{
    let mut places = [0u16; 224];
    let mut tree = Tree::new();
    gate::closed(v, &mut places, marks, &mut tree)?;
    let n = Gaps::of(v, marks).count();
    if room < n {
        return Err(Refusal::TooManyGaps);
    }
    Ok(n)
}

// Lays a gap into the words of pair i. Answers nothing.
// Example: put_pair(pairs, 1, Gap { first: 5, length: 11 }) makes word 2 a 5 and word 3 an 11.
fn put_pair(pairs: &mut [u64], i: usize, gap: Gap)
    requires { 2 * i + 1 < length pairs.old }
    ensures { pairs.new ≡ set (set pairs.old (2 * i) gap.first) (2 * i + 1) gap.length }
{
    let w = 2 * i;
    pairs[w] = gap.first;
    pairs[w + 1] = gap.length;
}

// Fills a list of words with the gaps, two words for each: its first page and its length. Answers the count of gaps; the words behind them
// keep their content, and of a refusal all words.
// Refusals: NoVolume, Damaged, JournalOpen, TooManyGaps.
// Example: of 16 pages just formatted with 8 inodes and three words list_words(v, pairs) is Ok(1), and makes the first two words
// 2 and 14.
pub fn list_words(v: &[u8], pairs: &mut [u64]) -> Result<u64, Refusal>
    ensures { (meaning result ≡ numbered (gaps_answer v.now (length pairs.old / 2)))
        × (pairs.new ≡ gaps_words v.now pairs.old) }
{
    let mut marks = Marks::new();
    let n = judge(v, pairs.len() / 2, &mut marks)?;
    for (i, gap) in Gaps::of(v, &marks).take(n).enumerate() {
        put_pair(pairs, i, gap);
    }
    Ok(n as u64)
}
