// The pairs of a store list: whether they are good for a volume, and what carrying them out stores.
#![tactic(auto)]

ghost use Rattle.std.specs.Prelude.{◌≡◌, true, ◌&&◌, ◌/◌, ◌%◌, length};
ghost use Rattle.model.specs.Stores.{carried};
ghost use Rattle.model.specs.Public.{pairs_ok, ends_in_fence};
ghost use Rattle.pairs.specs.Pairs.{pair_ok, pair_stored};

use layout::FENCE;

// Answers whether a pair of word index and value is a fence or a store into a volume of so many words.
// Example: of 1,024 words pair_ok(1023, 7, 1024) and pair_ok(FENCE, 0, 1024) are true; pair_ok(1024, 7, 1024) and
// pair_ok(FENCE, 1, 1024) are false.
fn pair_ok(index: u64, value: u64, words: u64) -> bool
    ensures { result ≡ pair_ok words index value }
{
    if index == FENCE {
        value == 0
    } else {
        index < words
    }
}

// Answers whether every pair of a list is a fence or a store into a volume of so many words.
// Example: of the list 66, 1088, FENCE, 0 pairs_ok(list, 1024) is true and pairs_ok(list, 66) false.
fn pairs_ok(list: &[u64], words: u64) -> bool
    requires { length list.now % 2 ≡ 0 }
    ensures { result ≡ pairs_ok words list.now }
{
    let (pairs, _) = list.as_chunks::<2>();
    for [index, value] in pairs {
        if !pair_ok(*index, *value, words) {
            return false;
        }
    }
    true
}

// Answers whether the last pair of a list is a fence; of an empty list this is true.
// Example: of the list 66, 1088, FENCE, 0 it is true, of the list 66, 1088 false.
fn ends_in_fence(list: &[u64]) -> bool
    requires { length list.now % 2 ≡ 0 }
    ensures { result ≡ ends_in_fence list.now }
{
    let n = list.len();
    n == 0 || list[n - 2] == FENCE
}

// Answers whether a list is a store list for a volume of so many words: every pair is a fence or a store into the
// volume, and the last is a fence.
// Example: of the list 66, 1088, FENCE, 0 list_ok(list, 1024) is true; of the list 66, 1088 it is false.
pub fn list_ok(list: &[u64], words: u64) -> bool
    requires { length list.now % 2 ≡ 0 }
    ensures { result ≡ pairs_ok words list.now && ends_in_fence list.now }
{
    pairs_ok(list, words) && ends_in_fence(list)
}

// Carries out one pair: stores the value in its word, or nothing where the pair is a fence. Answers nothing.
// Example: store_pair(v, 66, 1088) makes word 66 1088; store_pair(v, FENCE, 0) leaves v.
fn store_pair(v: &mut [u8], index: u64, value: u64)
    requires { pair_ok (length v.old / 8) index value ≡ true }
    ensures { v.new ≡ pair_stored v.old index value }
{
    if index != FENCE {
        words::put_word(v, index as usize, value);
    }
}

// Carries out every pair of a list, in list order. Answers nothing.
// Example: with the list 66, 1088, FENCE, 0, 66, 1152, FENCE, 0 word 66 becomes 1088 and then 1152.
pub fn store_pairs(v: &mut [u8], list: &[u64])
    requires { (length list.now % 2 ≡ 0) × (pairs_ok (length v.old / 8) list.now ≡ true) }
    ensures { v.new ≡ carried v.old list.now }
{
    let (pairs, _) = list.as_chunks::<2>();
    for [index, value] in pairs {
        store_pair(v, *index, *value);
    }
}
