// An index of the names that a directory's log adds: a table of slots with open addressing. A slot holds the place of the last entry
// so far that has a name, or 0 where it is empty; a place is an entry's first word divided by 8. No slot is ever emptied, so that a
// look-up ends at the slot of its name, or at an empty one. v is the volume, in which the names stand.
// Kept: an empty slot is a 0 and no None, so that the large table takes two bytes a slot, in fixed memory.
#![tactic(auto)]

ghost use Rattle.std.specs.Prelude.{◌≡◌, ◌+◌, ◌*◌, ◌^◌, ◌≤◌, ◌<◌, length, get_or};
ghost use Rattle.model.specs.Words.{word};
ghost use Rattle.inode_log.specs.Entries.{name_in};
ghost use Rattle.index.specs.Index.{same_name, weighed_of, spread_of, home_of, next_slot, slot_of, held, Slots, Noted};

use inode_log::Name;

// One more than the largest number of 32 bits.
const HALF: u64 = 4294967296;

// Answers the sum of a word's two halves, each times a factor.
// Example: weighed(4294967298, 10, 1000) is 1020: the lower half of the word is 2 and the upper 1.
fn weighed(word: u64, low: u64, high: u64) -> u64
    requires { (low < 2 ^ 29) × (high < 2 ^ 29) }
    ensures { (result ≡ weighed_of word low high) × (result < 2 ^ 62) }
{
    (word % HALF) * low + (word / HALF) * high
}

// Answers a number folded to 32 bits and spread by a factor.
// Example: spread(1) is 2654435761, and so is spread(4294967296), whose upper half is 1.
fn spread(x: u64) -> u64
    ensures { (result ≡ spread_of x) × (result < 2 ^ 32) }
{
    (x % HALF + x / HALF) % HALF * 2654435761 % HALF
}

// Answers the slot at which the look-up of a name starts, of so many slots: its four words weighed, spread over 32 bits and scaled to
// the slots. The factors are primes without a pattern.
// Example: of one slot it is slot 0.
fn home(name: Name, slots: usize) -> usize
    requires { (0 < slots) × (slots ≤ 65536) }
    ensures { (result ≡ home_of name slots) × (result < slots) }
{
    let a = weighed(name.first, 506832829, 378551291);
    let b = weighed(name.second, 445644797, 334214467);
    let c = weighed(name.third, 486187739, 295075153);
    let d = weighed(name.fourth, 433494437, 370248451);
    let t = spread(a + b + c + d);
    (t * (slots as u64) / HALF) as usize
}

// Answers whether the entry at a place has a name.
// Example: where the entry at place 264 adds or removes "ab", it is true of the name "ab" alone.
fn has_name(v: &[u8], place: usize, name: Name) -> bool
    requires { (64 * place + 64 ≤ length v.now) × (place < 65536) }
    ensures { result ≡ same_name (name_in (word v.now) (8 * place)) name }
{
    let at = 8 * place;
    // Kept: word by word, since a slot of another name mostly differs in the first, and the others are then not read.
    words::word_at(v, at + 3) == name.first
        && words::word_at(v, at + 4) == name.second
        && words::word_at(v, at + 5) == name.third
        && words::word_at(v, at + 6) == name.fourth
        && words::word_at(v, at + 2) == name.len
}

// Answers the slot after s, of so many: after the last comes the first.
// Example: next_slot(5, 256) is 6 and next_slot(255, 256) is 0.
fn next_slot(s: usize, slots: usize) -> usize
    requires { s < slots }
    ensures { (result ≡ next_slot slots s) × (result < slots) }
{
    if s + 1 == slots { 0 } else { s + 1 }
}

// Answers the slot at which the look-up of a name ends: from its home on, the first that is empty or holds the place of an entry of
// that name.
// Example: of slots that are all 0 it is the name's home.
fn slot_of(v: &[u8], index: &[u16], name: Name) -> usize
    requires { Slots (length v.now) index.now }
    ensures { (result ≡ slot_of (word v.now) index.now name) × (result < length index.now) }
{
    let slots = index.len();
    let mut s = home(name, slots);
    for _ in 0..slots {
        let place = usize::from(index[s]);
        if place == 0 || has_name(v, place, name) {
            return s;
        }
        s = next_slot(s, slots);
    }
    s
}

// Answers the place of the last entry so far that has a name, and 0 where the index does not hold the name.
// Example: of slots that are all 0 it is 0 of every name.
pub fn last(v: &[u8], index: &[u16], name: Name) -> usize
    requires { Slots (length v.now) index.now }
    ensures { result ≡ held (word v.now) index.now name }
{
    usize::from(index[slot_of(v, index, name)])
}

// Makes the entry at a place the last one of its name. A name that the index does not hold is put in only where the entry adds it.
// Answers whether it was put in.
// Example: of slots that are all 0 note(v, index, name, 264, false) is false and leaves them, and note(v, index, name, 264, true) is
// true; after that last(v, index, name) is 264.
pub fn note(v: &[u8], index: &mut [u16], name: Name, place: usize, adds: bool) -> bool
    requires { Slots (length v.now) index.old × (64 * place + 64 ≤ length v.now) × (place < 65536) }
    ensures { Noted (word v.now) (length v.now) index.old name place adds result index.new }
{
    let s = slot_of(v, index, name);
    let new = index[s] == 0;
    if new && !adds {
        return false;
    }
    index[s] = place as u16;
    new
}
