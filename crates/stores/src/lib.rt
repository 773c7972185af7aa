// Store lists as they are filled: "pairs of word index and value. The pair 2^64−1, 0 is a fence. Stores between fences form a group, in
// ascending index, each word once". A group stands in the list from index from to end; stores are put into it in any order, one by one
// or a run of words at once.
#![tactic(auto)]

ghost use Rattle.std.specs.Prelude.{◌≡◌, ◌&&◌, [], ◌∷◌, ◌++◌, ◌+◌, ◌*◌, ◌≤◌, ltb, eqb, length, get_or};
ghost use Rattle.model.specs.Stores.{fence, one_word, run};
ghost use Rattle.stores.specs.Emitted.{Emitted};
ghost use Rattle.stores.specs.Added.{Added, part, run_text, place_of, element};

// Puts a pair of word index and value into the list at index at, and answers the index behind it.
// Example: pair(list, 4, 66, 1088) makes element 4 of the list 66 and element 5 1088, and is 6.
pub fn pair(list: &mut [u64], at: usize, index: u64, value: u64) -> usize
    requires { at + 2 ≤ length list.old }
    ensures { Emitted list.old at (index ∷ value ∷ []) result list.new }
{
    let next = at + 1;
    list[at] = index;
    list[next] = value;
    next + 1
}

// Puts a fence into the list at index at, and answers the index behind it.
// Example: fence(list, 6) makes element 6 of the list 2^64 - 1 and element 7 0, and is 8.
pub fn fence(list: &mut [u64], at: usize) -> usize
    requires { at + 2 ≤ length list.old }
    ensures { Emitted list.old at (fence ∷ 0 ∷ []) result list.new }
{
    pair(list, at, layout::FENCE, 0)
}

// Answers how many of the n pairs from index from on stay before a pair of word index i.
// Example: of the pairs of words 3, 5 and 9 from index 0 on place(list, 0, 3, 5) is 1.
fn place(list: &[u64], from: usize, n: usize, i: u64) -> usize
    requires { from + 2 * n ≤ length list.now }
    ensures { (result ≡ place_of list.now from n i) × (result ≤ n) }
{
    for k in (0..n).rev() {
        if list[from + 2 * k] < i {
            return k + 1;
        }
    }
    0
}

// Answers whether the pair at index at, if one stands there before end, has word index i.
// Example: where element 4 is 9, has_word(list, 4, 6, 9) is true, and has_word(list, 6, 6, 9) is false.
fn has_word(list: &[u64], at: usize, end: usize, i: u64) -> bool
    requires { end ≤ length list.now }
    ensures { result ≡ ltb at end && eqb (get_or list.now at 0) i }
{
    at < end && list[at] == i
}

// Moves the n pairs from index at on up by m pairs, the last of them first. Answers the index behind them.
// Example: where the list has 3, 7, 9, 1 from index 0 on, move_up(list, 0, 2, 1) makes elements 2 to 5 3, 7, 9 and 1, and is 6.
fn move_up(list: &mut [u64], at: usize, n: usize, m: usize) -> usize
    requires { at + 2 * m + 2 * n ≤ length list.old }
    ensures { Emitted list.old (at + 2 * m) (part list.old at (2 * n)) result list.new
        × (result ≡ at + 2 * m + 2 * n) }
{
    let to = at + 2 * m;
    // Kept: copy_within moves one word a turn; with it twelve stores took a third longer.
    for k in (0..n).rev() {
        let x = list[at + 2 * k];
        let y = list[at + 2 * k + 1];
        pair(list, to + 2 * k, x, y);
    }
    to + 2 * n
}

// Puts a pair at index at and moves the n pairs from there on up behind it. Answers the index behind them.
// Example: insert(list, 2, 1, 5, 8) makes elements 2 and 3 5 and 8, and elements 4 and 5 what 2 and 3 were; it is 6.
fn insert(list: &mut [u64], at: usize, n: usize, index: u64, value: u64) -> usize
    requires { at + 2 * n + 2 ≤ length list.old }
    ensures { Emitted list.old at (index ∷ value ∷ part list.old at (2 * n)) result list.new
        × (result ≡ at + 2 * n + 2) }
{
    let end = move_up(list, at, n, 1);
    pair(list, at, index, value);
    end
}

// Adds a store to the group that stands in the list from index from to end, unless the group stores that word. Answers the index behind
// the group.
// Example: where the list has 3, 7, 9, 1 from index 0 on, put(list, 0, 4, 5, 8) makes it 3, 7, 5, 8, 9, 1 and is 6, and
// put(list, 0, 4, 9, 8) leaves it and is 4.
pub fn put(list: &mut [u64], from: usize, end: usize, index: u64, value: u64) -> usize
    requires { (from ≤ end) × (end + 2 ≤ length list.old) }
    ensures { Added list.old from end (one_word index value) result list.new × (from ≤ result) × (result ≤ end + 2) }
{
    let n = (end - from) / 2;
    let k = place(list, from, n, index);
    let at = from + 2 * k;
    if has_word(list, at, from + 2 * n, index) {
        return end;
    }
    insert(list, at, n - k, index, value)
}

// Puts the pairs of words, from word w on, into the list from index at on. Answers the index behind them.
// Example: fill(list, 2, 5, &[7, 8]) makes elements 2 to 5 of the list 5, 7, 6 and 8, and is 6.
fn fill(list: &mut [u64], at: usize, w: usize, words: &[u64]) -> usize
    requires { (at + 2 * length words.now ≤ length list.old) × (w + length words.now ≤ 262144) }
    ensures { Emitted list.old at (run_text w (length words.now) (element words.now)) result
        list.new
        × (result ≡ at + 2 * length words.now) }
{
    let mut a = at;
    for (i, x) in words.iter().enumerate() {
        a = pair(list, a, (w + i) as u64, *x);
    }
    a
}

// Puts the pairs of words, from word w on, at index at and moves the n pairs from there on up behind them. Answers the index behind all.
// Example: insert_words(list, 2, 1, 5, &[7, 8]) makes elements 2 to 5 5, 7, 6 and 8, and elements 6 and 7 what 2 and 3 were; it is 8.
fn insert_words(list: &mut [u64], at: usize, n: usize, w: usize, words: &[u64]) -> usize
    requires { (at + 2 * length words.now + 2 * n ≤ length list.old) × (w + length words.now ≤ 262144) }
    ensures { Emitted list.old at
        (run_text w (length words.now) (element words.now) ++ part list.old at (2 * n)) result
        list.new
        × (result ≡ at + 2 * length words.now + 2 * n) }
{
    let end = move_up(list, at, n, words.len());
    fill(list, at, w, words);
    end
}

// Adds words to the group as put_words does, one by one.
// Example: where the list has 6, 1 from index 0 on, put_each(list, 2, 5, &[7, 8]) makes it 5, 7, 6, 1 and is 4.
fn put_each(list: &mut [u64], end: usize, w: usize, words: &[u64]) -> usize
    requires { (end + 2 * length words.now ≤ length list.old) × (w + length words.now ≤ 262144) }
    ensures { Added list.old 0 end (run w (length words.now) (element words.now)) result
        list.new
        × (result ≤ end + 2 * length words.now) }
{
    let mut e = end;
    for (i, x) in words.iter().enumerate() {
        e = put(list, 0, e, (w + i) as u64, *x);
    }
    e
}

// Adds words, from word w on, to the group that stands in the list from index 0 to end, but for words that the group stores. Answers the
// index behind the group. Where the group stores none of them, the pairs of larger words move up once.
// Example: where the list has 9, 1 from index 0 on, put_words(list, 2, 5, &[7, 8]) makes it 5, 7, 6, 8, 9, 1 and is 6.
pub fn put_words(list: &mut [u64], end: usize, w: usize, words: &[u64]) -> usize
    requires { (end + 2 * length words.now ≤ length list.old) × (w + length words.now ≤ 262144) }
    ensures { Added list.old 0 end (run w (length words.now) (element words.now)) result
        list.new
        × (result ≤ end + 2 * length words.now) }
{
    if words.len() == 0 {
        return end;
    }
    let n = end / 2;
    let below = place(list, 0, n, (w + words.len()) as u64);
    let k = place(list, 0, below, w as u64);
    if k < below {
        return put_each(list, end, w, words);
    }
    insert_words(list, 2 * k, n - k, w, words)
}
