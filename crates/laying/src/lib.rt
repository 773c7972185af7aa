// A log as it is laid into the first group of a lent store list: entries one after the other, each on the tail's page or on a fresh one,
// with a link in every page left behind. marks has a byte for each page, 0 where the page is not in use.
#![tactic(auto)]

ghost use Rattle.std.specs.Prelude.{◌≡◌, ◌+◌, ◌*◌, ◌/◌, ◌≤◌, ◌<◌, ◌^◌, length};
ghost use Rattle.model.specs.Calls.{pages_for};
ghost use Rattle.laying.specs.Laying.{needed_at, Layable, Turned, Lays, LogLaid};

use layout::Sizes;
use marks::Marks;

// Answers how many log pages n entries fill.
// Example: pages_for(0) is 0, pages_for(7) is 1 and pages_for(8) is 2.
fn pages_for(n: usize) -> usize
    requires { n < 2 ^ 63 }
    ensures { result ≡ pages_for n }
{
    (n + (layout::PAGE_ENTRIES - 1)) / layout::PAGE_ENTRIES
}

// Answers how many fresh pages a log takes for n further entries: as many as those on its tail's page and the further ones fill, less
// that page. Tail 0 is that of an empty log, which has no page yet.
// Example: pages_needed(0, 2) is 1. With tail 1,216, behind the third entry of page 2, pages_needed(1216, 4) is 0 and
// pages_needed(1216, 5) is 1.
pub fn pages_needed(tail: usize, n: usize) -> usize
    requires { n < 2 ^ 62 }
    ensures { (result ≡ needed_at tail n) × (result ≤ n) }
{
    let slots = tail % layout::PAGE / layout::ENTRY;
    let all = pages_for(slots + n);
    if tail == 0 {
        return all;
    }
    if all == 0 {
        return 0;
    }
    all - 1
}

// How far a log is laid: the first group ends at `end` and the log at `tail`, which is 0 where it has no page yet; `head` is the first
// page of a log that had none, and fresh pages are sought from page `from` on.
#[derive(Clone, Copy)]
pub struct Laid {
    pub end: usize,
    pub head: usize,
    pub tail: usize,
    pub from: usize,
}

// Takes a fresh page where the tail's page has no room for an entry, with a link to it in the page left behind, or where the log has no
// page: that one is its head. Answers how far the log is laid then.
// Example: with tail 1,472, behind the last entry of page 2, and page 5 the lowest free one, it puts 184, 5, and the tail is 2,560.
fn turn_page(list: &mut [u64], marks: &Marks, sizes: Sizes, g: Laid) -> Laid
    requires { (sizes.pages ≤ 4096) × Layable marks.now sizes g 1 × (g.end + 2 ≤ length list.old) }
    ensures { Turned marks.now sizes list.old g result list.new }
{
    if g.tail == 0 {
        let p = space::next_free(marks, sizes, g.from).unwrap();
        return Laid {
            head: p,
            tail: layout::PAGE * p,
            from: p + 1,
            ..g
        };
    }
    if g.tail % layout::PAGE != layout::ENTRY * layout::PAGE_ENTRIES {
        return g;
    }
    let p = space::next_free(marks, sizes, g.from).unwrap();
    let link = layout::footer(g.tail / layout::PAGE);
    Laid {
        end: stores::put(list, 0, g.end, link as u64, p as u64),
        tail: layout::PAGE * p,
        from: p + 1,
        ..g
    }
}

// Lays entries, eight words each, behind the tail. Answers how far the log is laid then.
// Example: with tail 1,216 two entries go to the words 152 to 167, and the tail is 1,344.
fn lay_entries(list: &mut [u64], marks: &Marks, sizes: Sizes, g: Laid, entries: &[u64]) -> Laid
    requires { (sizes.pages ≤ 4096) × Layable marks.now sizes g (length entries.now / 8)
        × (g.end + 18 * (length entries.now / 8) ≤ length list.old) }
    ensures { Lays marks.now sizes list.old g entries.now result list.new }
{
    let mut h = g;
    for i in 0..entries.len() / layout::ENTRY_WORDS {
        let a = layout::ENTRY_WORDS * i;
        let t = turn_page(list, marks, sizes, h);
        let end = stores::put_words(
            list,
            t.end,
            t.tail / 8,
            &entries[a..a + layout::ENTRY_WORDS],
        );
        h = Laid {
            end,
            tail: t.tail + layout::ENTRY,
            ..t
        };
    }
    h
}

// Lays entries behind the tail, those of `entries` first and then those of `last`. Answers how far the log is laid then.
// Example: with tail 1,216, one entry and no last one it puts the words 152 to 159, and the tail is 1,280.
pub fn lay_log(
    list: &mut [u64],
    marks: &Marks,
    sizes: Sizes,
    g: Laid,
    entries: &[u64],
    last: &[u64],
) -> Laid
    requires { (sizes.pages ≤ 4096) × Layable marks.now sizes g (length entries.now / 8 + length last.now / 8)
        × (g.end + 18 * (length entries.now / 8 + length last.now / 8) ≤ length list.old) }
    ensures { LogLaid marks.now sizes list.old g entries.now last.now result
        list.new }
{
    let h = lay_entries(list, marks, sizes, g, entries);
    lay_entries(list, marks, sizes, h, last)
}
