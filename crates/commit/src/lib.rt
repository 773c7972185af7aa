// What commits a first group: the group stands in the list from its start on, and what commits it follows. Words to commit are given as
// pairs of word index and value, as they stand in a store list. v is the volume, whose journal is closed.
#![tactic(auto)]

ghost use Rattle.std.specs.Prelude.{[], ◌∷◌, ◌+◌, ◌*◌, ◌/◌, ◌≤◌, ◌<◌, length};
ghost use Rattle.model.specs.Words.{word};
ghost use Rattle.model.specs.Stores.{fence};
ghost use Rattle.model.specs.Calls.{journal_pairs, targets};
ghost use Rattle.stores.specs.Emitted.{Emitted};
ghost use Rattle.stores.specs.Added.{Added};
ghost use Rattle.commit.specs.Commit.{changes_of, logged, Pairs, Committed};

use journal::Position;

// Puts a group of one word and the fences around it into the list at index at. Answers the index behind them.
// Example: put_one(list, 4, 66, 1088) puts a fence, 66, 1088 and a fence, and is 10.
fn put_one(list: &mut [u64], at: usize, w: u64, x: u64) -> usize
    requires { at + 6 ≤ length list.old }
    ensures { Emitted list.old at (fence ∷ 0 ∷ w ∷ x ∷ fence ∷ 0 ∷ []) result list.new }
{
    let a = stores::fence(list, at);
    let b = stores::pair(list, a, w, x);
    stores::fence(list, b)
}

// Adds what position p of the journal logs of word t to the first group, which ends at end: its index, and its value as it stands.
// Answers the index behind the group.
// Example: where word 66 is 1088, log_target(v, list, 0, Position::new(3), 66) puts 22, 66, 23, 1088 and is 4.
fn log_target(v: &[u8], list: &mut [u64], end: usize, p: Position, t: u64) -> usize
    requires { (p.at < 16) × (8 * t + 8 ≤ length v.now) × (end + 4 ≤ length list.old) }
    ensures { Added list.old 0 end (logged (word v.now) p.at t) result list.new × (result ≤ end + 4) }
{
    let at = p.at;
    let e = stores::put(list, 0, end, 16 + 2 * at, t);
    let x = words::word_at(v, t as usize);
    stores::put(list, 0, e, 17 + 2 * at, x)
}

// Adds what the journal logs, from position p on, of the words to commit to the first group, which ends at end. Answers the index behind
// the group.
// Example: from position 3 on it stores words 22, 23, 24 and 25 for two words.
fn log_targets(v: &[u8], list: &mut [u64], end: usize, p: Position, changes: &[u64]) -> usize
    requires { (p.at < 16) × Pairs v.now changes.now × (end + 2 * length changes.now ≤ length list.old) }
    ensures { Added list.old 0 end (journal_pairs (word v.now) p.at (changes_of changes.now)) result
        list.new
        × (result ≤ end + 2 * length changes.now) }
{
    let mut q = p;
    let mut e = end;
    let (pairs, _) = changes.as_chunks::<2>();
    for [t, _] in pairs {
        e = log_target(v, list, e, q, *t);
        q = q.next();
    }
    e
}

// Puts the words to commit into the list at index at, as a group. Answers the index behind it.
// Example: put_targets(list, 4, &[72, 1, 66, 1088]) puts 66, 1088, 72, 1 and is 8.
fn put_targets(list: &mut [u64], at: usize, changes: &[u64]) -> usize
    requires { at + length changes.now ≤ length list.old }
    ensures { Added list.old at at (targets (changes_of changes.now)) result list.new
        × (result ≤ at + length changes.now) }
{
    let mut e = at;
    let (pairs, _) = changes.as_chunks::<2>();
    for [t, x] in pairs {
        e = stores::put(list, at, e, *t, *x);
    }
    e
}

// Puts what commits words behind the first group, which stands in the list from its start to end: one word by itself, several through the
// journal, whose pairs join the first group. Answers the count of words filled.
// Example: behind a first group of eight words, which ends at 16, one word makes the list 22 words long, and two make it 40.
pub fn commit(v: &[u8], list: &mut [u64], end: usize, changes: &[u64]) -> usize
    requires { Pairs v.now changes.now × (2 ≤ length changes.now) × (end + 3 * length changes.now + 12 ≤ length list.old) }
    ensures { Committed v.now list.old end (changes_of changes.now) result list.new
        × (result ≤ length list.old) }
{
    let n = changes.len() / 2;
    if n == 1 {
        return put_one(list, end, changes[0], changes[1]);
    }
    let p = Position::new(words::word_at(v, layout::ENQUEUE_WORD));
    let q = Position::new((p.at + n as u64) % Position::COUNT);
    let e = log_targets(v, list, end, p, changes);
    let a = put_one(list, e, layout::ENQUEUE_WORD as u64, q.at);
    let b = put_targets(list, a, changes);
    put_one(list, b, layout::DEQUEUE_WORD as u64, q.at)
}
