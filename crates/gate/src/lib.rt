// What calls ask of a volume before anything else: that it is one, that it is accepted, and that its journal is closed.
// v is the volume. The tables are lent, and are those of crate survey.
#![tactic(auto)]

ghost use Rattle.std.specs.Prelude.{◌≡◌, length, replicate};
ghost use Rattle.model.specs.Words.{word};
ghost use Rattle.model.specs.Public.{volume_checks, closed_checks};
ghost use Rattle.gate.specs.Gated.{fill_checks, Gated};

use answer::Refusal;
use marks::Marks;
use tree::Tree;

// Judges a volume and fills the tables; marks and tree must be zeros. Answers the count of names of inode 0, or refuses with
// NoVolume or Damaged. Where it refuses, the tables hold anything.
// Example: of a volume just formatted judged(v, places, marks, tree) is Ok(0), of no bytes Err(Refusal::NoVolume).
pub fn judged(
    v: &[u8],
    places: &mut [u16; 224],
    marks: &mut Marks,
    tree: &mut Tree,
) -> Result<usize, Refusal>
    requires { (length places.old ≡ 224) × (marks.old ≡ replicate 4096 0) × (tree.old ≡ replicate 256 0) }
    ensures { Gated v.now (volume_checks (length v.now) (word v.now)) result places.new
        marks.new tree.new }
{
    if !header::is_volume(v) {
        return Err(Refusal::NoVolume);
    }
    survey::judge(v, places, marks, tree).ok_or(Refusal::Damaged)
}

// Judges a volume and its journal and fills the tables, as `judged` does. Answers the count of names of inode 0, or refuses with
// NoVolume, Damaged or JournalOpen.
// Example: of a volume just formatted it is Ok(0); where its dequeue word is 1 and its enqueue word 0, it refuses with JournalOpen or Damaged.
pub fn closed(
    v: &[u8],
    places: &mut [u16; 224],
    marks: &mut Marks,
    tree: &mut Tree,
) -> Result<usize, Refusal>
    requires { (length places.old ≡ 224) × (marks.old ≡ replicate 4096 0) × (tree.old ≡ replicate 256 0) }
    ensures { Gated v.now (closed_checks (length v.now) (word v.now)) result places.new
        marks.new tree.new }
{
    let count = judged(v, places, marks, tree)?;
    if journal::is_open(v) {
        return Err(Refusal::JournalOpen);
    }
    Ok(count)
}

// Asks what every call that fills a store list asks first, recover apart: that the list has 4,096 words or more, and then what `closed`
// asks. Answers the count of names of inode 0, or refuses with ShortMemory, NoVolume, Damaged or JournalOpen, and fills the tables as
// `judged` does.
// Example: of a volume just formatted filling(v, 4096, places, marks, tree) is Ok(0) and
// filling(v, 4095, places, marks, tree) Err(Refusal::ShortMemory).
pub fn filling(
    v: &[u8],
    words: usize,
    places: &mut [u16; 224],
    marks: &mut Marks,
    tree: &mut Tree,
) -> Result<usize, Refusal>
    requires { (length places.old ≡ 224) × (marks.old ≡ replicate 4096 0) × (tree.old ≡ replicate 256 0) }
    ensures { Gated v.now (fill_checks (length v.now) (word v.now) words) result places.new
        marks.new tree.new }
{
    if words < layout::LIST_WORDS {
        return Err(Refusal::ShortMemory);
    }
    closed(v, places, marks, tree)
}
