// The rollback journal of a volume: its positions, its open entries, the view of a word, and whether it is as an
// accepted volume has it. v is the volume. "Word 8 is the journal's dequeue position, word 9 its enqueue position."
#![tactic(auto)]

ghost use Rattle.std.specs.Prelude.{◌≡◌, ◌+◌, ◌*◌, ◌≤◌, ◌<◌, length};
ghost use Rattle.model.specs.Lists.{all, has, distinct};
ghost use Rattle.model.specs.Words.{word};
ghost use Rattle.model.specs.Journal.{dequeue_word, enqueue_word, target_word, old_word, next_position, distance, open_count, open_targets};
ghost use Rattle.model.specs.Journal.{is_open, view, target_ok, journal_ok};
ghost use Rattle.journal.specs.Targets.{targets};

// How many entries are open at most. "At most four entries are open."
const MOST_OPEN: u64 = 4;

// A place in the journal. "A position is below 16 and the one after 15 is 0."
#[derive(Clone, Copy)]
pub struct Position {
    pub at: u64,
}

impl Position {
    // How many positions there are.
    pub const COUNT: u64 = 16;

    // Answers the position at.
    // Example: Position::new(3) is position 3.
    pub fn new(at: u64) -> Position
        requires { at < 16 }
        ensures { (result.at ≡ at) × (result.at < 16) }
    {
        Position { at }
    }

    // Answers the position after this one.
    // Example: after position 14 comes 15, and after 15 comes 0.
    pub fn next(self) -> Position
        requires { self.at < 16 }
        ensures { (result.at ≡ next_position self.at) × (result.at < 16) }
    {
        Position {
            at: (self.at + 1) % Position::COUNT,
        }
    }

    // Answers how many steps lead from this position to another.
    // Example: from 14 to 1 it is 3, and from 14 to 14 it is 0.
    pub fn distance(self, to: Position) -> u64
        requires { (self.at < 16) × (to.at < 16) }
        ensures { (result ≡ distance self.at to.at) × (result < 16) }
    {
        (to.at + Position::COUNT - self.at) % Position::COUNT
    }
}

// Reads the target of a position, the index of the word whose old value it keeps, and answers it.
// "Position i holds a target word's index in word 16+2i and its old value in word 17+2i."
// Example: where word 22 is 66, target_at(v, Position::new(3)) is 66.
pub fn target_at(v: &[u8], p: Position) -> u64
    requires { (p.at < 16) × (512 ≤ length v.now) }
    ensures { result ≡ word v.now (target_word p.at) }
{
    let at = p.at as usize;
    words::word_at(v, 16 + 2 * at)
}

// Answers the word in which a position keeps the old value of its target.
// Example: old_word(Position::new(3)) is 23.
fn old_word(p: Position) -> usize
    requires { p.at < 16 }
    ensures { result ≡ old_word p.at }
{
    let at = p.at as usize;
    17 + 2 * at
}

// Reads the old value that a position keeps, and answers it.
// Example: where word 23 is 1088, old_at(v, Position::new(3)) is 1088.
pub fn old_at(v: &[u8], p: Position) -> u64
    requires { (p.at < 16) × (512 ≤ length v.now) }
    ensures { result ≡ word v.now (old_word p.at) }
{
    words::word_at(v, old_word(p))
}

// Answers how many entries are open: from the dequeue position up to the enqueue position.
// Example: with dequeue 14 and enqueue 0 it is 2.
pub fn open_count(v: &[u8]) -> u64
    requires { (word v.now dequeue_word < 16) × (word v.now enqueue_word < 16) × (512 ≤ length v.now) }
    ensures { (result ≡ open_count (word v.now)) × (result < 16) }
{
    let from = Position::new(words::word_at(v, layout::DEQUEUE_WORD));
    let to = Position::new(words::word_at(v, layout::ENQUEUE_WORD));
    from.distance(to)
}

// Answers whether an entry is open.
// Example: with dequeue 2 and enqueue 2 it is false, with dequeue 2 and enqueue 4 true.
pub fn is_open(v: &[u8]) -> bool
    requires { (word v.now dequeue_word < 16) × (word v.now enqueue_word < 16) × (512 ≤ length v.now) }
    ensures { result ≡ is_open (word v.now) }
{
    0 < open_count(v)
}

// Answers the word from which the view of word w is read: the one that keeps its old value where an open entry has it as target, else w
// itself.
// Example: where the one open entry stands at position 3 and has target 66, viewed_from(v, 66) is 23 and viewed_from(v, 65) is 65.
fn viewed_from(v: &[u8], w: usize) -> usize
    requires { (word v.now dequeue_word < 16) × (word v.now enqueue_word < 16) × (512 ≤ length v.now)
        × (8 * w + 8 ≤ length v.now) }
    ensures { (word v.now result ≡ view (word v.now) w) × (8 * result + 8 ≤ length v.now) }
{
    let mut p = Position::new(words::word_at(v, layout::DEQUEUE_WORD));
    for _ in 0..open_count(v) {
        if target_at(v, p) == (w as u64) {
            return old_word(p);
        }
        p = p.next();
    }
    w
}

// Reads the view of a word, its value with the open entries put back, and answers it. It is for the words of inodes: a
// word past the inode table reads as it stands (proofs/Views.antt, `view_raw`).
// Example: where the one open entry has target 66 and old value 0, viewed(v, 66) is 0 and viewed(v, 65) is word 65.
pub fn viewed(v: &[u8], w: usize) -> u64
    requires { (word v.now dequeue_word < 16) × (word v.now enqueue_word < 16) × (512 ≤ length v.now)
        × (8 * w + 8 ≤ length v.now) }
    ensures { result ≡ view (word v.now) w }
{
    words::word_at(v, viewed_from(v, w))
}

// Answers whether t is a target of one of count positions from a position on.
// Example: where positions 3 and 4 have targets 66 and 72, has_target(v, Position::new(3), 2, 72) is true.
fn has_target(v: &[u8], from: Position, count: u64, t: u64) -> bool
    requires { (from.at < 16) × (512 ≤ length v.now) }
    ensures { result ≡ has t (targets (word v.now) count from.at) }
{
    let mut p = from;
    for _ in 0..count {
        if target_at(v, p) == t {
            return true;
        }
        p = p.next();
    }
    false
}

// Answers whether t is a valid, head or tail word of one of the inodes.
// Example: with 8 inodes 66 and 122 are such words; 63, 67 and 128 are not.
fn target_ok(inodes: u64, t: u64) -> bool
    requires { inodes ≤ 256 }
    ensures { result ≡ target_ok inodes t }
{
    64 <= t && t < layout::valid_word(inodes as usize) as u64 && t % 8 < 3
}

// Answers whether the targets of the open entries are all valid, head or tail words of inodes.
// Example: where two entries are open, with targets 66 and 67, targets_ok(v, 8) is false.
fn targets_ok(v: &[u8], inodes: u64) -> bool
    requires { (word v.now dequeue_word < 16) × (word v.now enqueue_word < 16) × (512 ≤ length v.now) × (inodes ≤ 256) }
    ensures { result ≡ all (target_ok inodes) (open_targets (word v.now)) }
{
    let mut p = Position::new(words::word_at(v, layout::DEQUEUE_WORD));
    for _ in 0..open_count(v) {
        if !target_ok(inodes, target_at(v, p)) {
            return false;
        }
        p = p.next();
    }
    true
}

// Answers whether no two open entries have the same target.
// Example: where two entries are open and both have target 66, targets_differ(v) is false.
fn targets_differ(v: &[u8]) -> bool
    requires { (word v.now dequeue_word < 16) × (word v.now enqueue_word < 16) × (512 ≤ length v.now) }
    ensures { result ≡ distinct (open_targets (word v.now)) }
{
    let mut p = Position::new(words::word_at(v, layout::DEQUEUE_WORD));
    for left in (0..open_count(v)).rev() {
        let t = target_at(v, p);
        p = p.next();
        if has_target(v, p, left, t) {
            return false;
        }
    }
    true
}

// Answers whether the journal is as an accepted volume has it: both positions below 16, at most four entries open,
// and their targets different words that are valid, head or tail words of inodes.
// Example: with dequeue 2 and enqueue 7 it is false, since five entries are open.
pub fn journal_ok(v: &[u8], inodes: u64) -> bool
    requires { (512 ≤ length v.now) × (inodes ≤ 256) }
    ensures { result ≡ journal_ok (word v.now) inodes }
{
    words::word_at(v, layout::DEQUEUE_WORD) < Position::COUNT
        && words::word_at(v, layout::ENQUEUE_WORD) < Position::COUNT
        && open_count(v) <= MOST_OPEN
        && targets_ok(v, inodes)
        && targets_differ(v)
}
