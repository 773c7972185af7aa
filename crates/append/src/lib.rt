// One append, whole: it takes the pages, fills the first group and commits, or answers that it has no room. v is the volume,
// which is accepted and whose journal is closed; marks has a byte for each page, 0 where the page is not in use.
#![tactic(auto)]

ghost use Rattle.std.specs.Prelude.{◌≡◌, cond, [], ◌∷◌, ◌+◌, ◌*◌, ◌/◌, ◌≤◌, ◌<◌, ◌^◌, length};
ghost use Rattle.model.specs.Words.{word};
ghost use Rattle.model.specs.Layout.{tail_word};
ghost use Rattle.model.specs.Answer.{done, first_refusal};
ghost use Rattle.model.specs.Calls.{lay_pages, room_checks};
ghost use Rattle.stores.specs.Emitted.{Emitted};
ghost use Rattle.stores.specs.Added.{Added, element};
ghost use Rattle.space.specs.Space.{ArePages};
ghost use Rattle.answer.specs.Meaning.{meaning, numbered};
ghost use Rattle.answer.specs.Comes.{Comes};
ghost use Rattle.laying.specs.Laying.{Layable};
ghost use Rattle.append.specs.Appended.{old_tail, head_of, rest_of, SecondLaid, zeroed, pairs_of, committing, action_of, outcome, Ready};

use answer::Refusal;
use laying::Laid;
use layout::Sizes;
use marks::Marks;

// What is appended to the log of inode `log`, or is the whole of it where the log is written `anew`. Entries and data are given beside
// it; the last `moved` entries go to the log of inode `second` instead, which goes on: a valid inode, also where none are moved. The data
// are file pages from page `file` on, of a file that has `size` bytes then. Together with the tails the valid word of inode `other`, if
// that is not 0, becomes `valid`: 1 makes an inode with an empty log and type `kind`, 0 lets it go. The last free page is not taken where
// it `keeps` that page.
#[derive(Clone, Copy)]
pub struct Append {
    pub log: usize,
    pub file: u64,
    pub size: u64,
    pub second: usize,
    pub moved: usize,
    pub other: usize,
    pub valid: u64,
    pub kind: u64,
    pub anew: bool,
    pub keeps: bool,
}

// Answers the tail that the log of inode k goes on with; 0 where it is written anew.
// Example: where word 74 is 1,216, old_tail(v, false, 1) is 1,216, and old_tail(v, true, 1) is 0.
fn old_tail(v: &[u8], anew: bool, k: usize) -> usize
    requires { (8 * tail_word k + 8 ≤ length v.now) × (length v.now ≤ 2097152) }
    ensures { result ≡ old_tail (word v.now) anew k }
{
    if anew {
        return 0;
    }
    words::word_at(v, layout::tail_word(k)) as usize
}

// Puts the head of the log of inode k, which is laid as far as g, into the first group, where the log goes on and its tail was 0.
// Answers the index behind the group.
// Example: where the log of inode 1 was empty and page 5 is its first page, it puts 73, 5.
fn put_head(list: &mut [u64], g: Laid, anew: bool, k: usize, tail: usize) -> usize
    requires { (k < 2 ^ 32) × (g.end + 2 ≤ length list.old) }
    ensures { Added list.old 0 g.end (head_of anew k tail g.head) result list.new × (result ≤ g.end + 2) }
{
    let end = g.end;
    if anew {
        return end;
    }
    if tail != 0 {
        return end;
    }
    stores::put(list, 0, end, layout::head_word(k) as u64, g.head as u64)
}

// Puts data into the first group, which ends at end: 64 words for each page of `pages`. Answers the index behind the group.
// Example: where pages are 5 and 8 it puts the words 320 to 383 and 512 to 575.
fn put_data(list: &mut [u64], end: usize, pages: &[u64], data: &[u64]) -> usize
    requires { ArePages pages.now × (64 * length pages.now ≤ length «data».now)
        × (end + 128 * length pages.now ≤ length list.old) }
    ensures { Added list.old 0 end (lay_pages pages.now (element «data».now)) result list.new
        × (result ≤ end + 128 * length pages.now) }
{
    let mut e = end;
    for (i, p) in pages.iter().enumerate() {
        let a = layout::PAGE_WORDS * i;
        let w = layout::PAGE_WORDS * (*p as usize);
        e = stores::put_words(list, e, w, &data[a..a + layout::PAGE_WORDS]);
    }
    e
}

// Puts the rest of an append to its first log, which is laid as far as g, into the first group: the head, and the data on these pages.
// Answers the index behind the group.
// Example: of an append without data to a log that goes on and has a page it puts nothing.
fn put_rest(list: &mut [u64], g: Laid, a: Append, tail: usize, pages: &[u64], data: &[u64]) -> usize
    requires { (a.log < 2 ^ 32) × ArePages pages.now × (64 * length pages.now ≤ length «data».now)
        × (g.end + 128 * length pages.now + 2 ≤ length list.old) }
    ensures { Added list.old 0 g.end (rest_of a tail g.head pages.now «data».now) result
        list.new
        × (result ≤ g.end + 128 * length pages.now + 2) }
{
    let e = put_head(list, g, a.anew, a.log, tail);
    put_data(list, e, pages, data)
}

// Lays the entries that go to the second log, that of inode k, from g on, and puts its head where its tail was 0; nothing where there are
// no entries. Answers how far the log is laid then.
// Example: with tail 1,216 and one entry it puts the words 152 to 159, and the tail is 1,280.
fn lay_second(
    list: &mut [u64],
    marks: &Marks,
    sizes: Sizes,
    g: Laid,
    k: usize,
    entries: &[u64],
) -> Laid
    requires { (sizes.pages ≤ 4096) × (k < 2 ^ 32) × Layable marks.now sizes g (length entries.now / 8)
        × (g.end + 18 * (length entries.now / 8) + 2 ≤ length list.old) }
    ensures { SecondLaid marks.now sizes list.old g k entries.now result list.new }
{
    let n = entries.len() / layout::ENTRY_WORDS;
    if n == 0 {
        return g;
    }
    let none = [0u64; 1];
    let h = laying::lay_log(list, marks, sizes, g, entries, &none[..0]);
    let end = put_head(list, h, false, k, g.tail);
    Laid { end, ..h }
}

// Puts head and tail of a new inode, zeros, and its type into the first group, which ends at end. Answers the index behind the group.
// Example: where inode 1 becomes a valid folder it puts 73, 0 and 74, 0 and 75, 1.
fn put_new(list: &mut [u64], end: usize, a: Append) -> usize
    requires { (a.other < 2 ^ 32) × (end + 6 ≤ length list.old) }
    ensures { Added list.old 0 end (zeroed a) result list.new × (result ≤ end + 6) }
{
    if a.other == 0 {
        return end;
    }
    if a.valid == 0 {
        return end;
    }
    let e = stores::put(list, 0, end, layout::head_word(a.other) as u64, 0);
    let f = stores::put(list, 0, e, layout::tail_word(a.other) as u64, 0);
    stores::put(list, 0, f, layout::type_word(a.other) as u64, a.kind)
}

// Puts a word's index and its new value behind the words to commit, which end at index at, if the word changes. Answers the index behind
// them.
// Example: put_change(words, 2, true, 72, 1) makes elements 2 and 3 72 and 1, and is 4.
fn put_change(words: &mut [u64], at: usize, changes: bool, w: usize, x: u64) -> usize
    requires { at + 2 ≤ length «words».old }
    ensures { Emitted «words».old at (pairs_of (cond changes ((w, x) ∷ []) [])) result «words».new × (result ≤ at + 2) }
{
    if changes {
        return stores::pair(words, at, w as u64, x);
    }
    at
}

// Puts the words that commit an append, as pairs of index and value, where its first log is laid as far as g and its second one has this
// tail. Answers the index behind them.
// Example: of an append to the log of inode 1 with tail 1,216 they are 74, 1216.
fn to_commit(words: &mut [u64], a: Append, g: Laid, second_tail: usize) -> usize
    requires { (a.log < 2 ^ 32) × (a.second < 2 ^ 32) × (a.other < 2 ^ 32) × (8 ≤ length «words».old) }
    ensures { Emitted «words».old 0 (pairs_of (committing a g.head g.tail second_tail)) result «words».new
        × (result ≤ 8) }
{
    let has_second = a.moved != 0;
    let has_other = a.other != 0;
    let b = put_change(words, 0, a.anew, layout::head_word(a.log), g.head as u64);
    let c = put_change(words, b, true, layout::tail_word(a.log), g.tail as u64);
    let d = put_change(
        words,
        c,
        has_second,
        layout::tail_word(a.second),
        second_tail as u64,
    );
    put_change(words, d, has_other, layout::valid_word(a.other), a.valid)
}

// Answers the count of pages that a call needs, if it has room for them; refuses with NoSpace where fewer are free, and with LastPage where
// it would take the last one and keeps that page.
// Example: room(true, 5, 4) is Ok(4), room(true, 5, 5) Err(Refusal::LastPage), room(false, 5, 5) Ok(5), room(true, 5, 6)
// Err(Refusal::NoSpace), and room(true, 0, 0) Ok(0).
#[tactic(auto, unfolding(model::specs::Calls::room_checks))]
fn room(keeps: bool, free: usize, needed: usize) -> Result<usize, Refusal>
    ensures { meaning result ≡ numbered (first_refusal (room_checks keeps free needed) (done needed)) }
{
    if free < needed {
        return Err(Refusal::NoSpace);
    }
    if keeps && needed != 0 && needed == free {
        return Err(Refusal::LastPage);
    }
    Ok(needed)
}

// Makes an append: takes its pages, fills the list with the first group and what commits it, and answers the count of words filled;
// refuses with NoSpace or LastPage where it has no room, and then leaves the list. The entries have eight words each, the data 64 words for
// each page, of which there are nine at most: a write of 4,096 bytes covers no more.
// Example: of one entry on a page that has room for it, and no data, the list has 22 words: eight pairs and a fence, the tail and a fence.
pub fn make(
    v: &[u8],
    marks: &mut Marks,
    a: Append,
    entries: &[u64],
    data: &[u64],
    list: &mut [u64],
) -> Result<u64, Refusal>
    requires { Ready v.now marks.old a entries.now «data».now list.old }
    ensures { Comes (outcome v.now (action_of a entries.now «data».now)) list.old result
        list.new }
{
    let sizes = Sizes::of(v);
    let tail = old_tail(v, a.anew, a.log);
    let second_tail = old_tail(v, false, a.second);
    let n = entries.len() / layout::ENTRY_WORDS - a.moved;
    let count = data.len() / layout::PAGE_WORDS;
    let free = inodes::free_count(marks, sizes) as usize;
    let mut pages = [0u64; 9];
    if !space::take_pages(marks, sizes, count, &mut pages) {
        return Err(Refusal::NoSpace);
    }
    let mut writes = [0u64; 72];
    let more = entries::put_stretches(&pages[..count], a.file, a.size, &mut writes);
    let needed = laying::pages_needed(tail, n + more);
    let second_needed = laying::pages_needed(second_tail, a.moved);
    room(a.keeps, free, count + needed + second_needed)?;
    let m = layout::ENTRY_WORDS * more;
    let split = layout::ENTRY_WORDS * n;
    let begin = Laid {
        end: 0,
        head: 0,
        tail,
        from: 0,
    };
    let g = laying::lay_log(list, marks, sizes, begin, &entries[..split], &writes[..m]);
    let behind = Laid {
        end: put_rest(list, g, a, tail, &pages[..count], data),
        head: 0,
        tail: second_tail,
        from: g.from,
    };
    let h = lay_second(list, marks, sizes, behind, a.second, &entries[split..]);
    let end = put_new(list, h.end, a);
    let mut words = [0u64; 8];
    let filled = to_commit(&mut words, a, g, h.tail);
    Ok(commit::commit(v, list, end, &words[..filled]) as u64)
}
