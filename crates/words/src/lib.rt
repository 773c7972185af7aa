// Words and bytes of a lent slice. "A word is 8 bytes, little-endian, aligned; word w is bytes 8w to 8w+7."
#![tactic(auto)]

ghost use Rattle.std.specs.Prelude.{◌≡◌, ◌+◌, ◌*◌, ◌^◌, ◌≤◌, ◌<◌, length};
ghost use Rattle.model.specs.Words.{word, put_word, byte_at};

// Answers the index of the first byte of word w.
// Example: first_byte(3) is 24.
fn first_byte(w: usize) -> usize
    requires { 8 * w + 8 < 2 ^ 64 }
    ensures { result ≡ 8 * w }
{
    8 * w
}

// Reads word w and answers it.
// Example: of 16 bytes, all 0 but byte 9, which is 1, word_at(v, 1) is 256.
pub fn word_at(v: &[u8], w: usize) -> u64
    requires { 8 * w + 8 ≤ length v.now }
    ensures { result ≡ word v.now w }
{
    let b = first_byte(w);
    u64::from_le_bytes(v[b..b + 8].try_into().unwrap())
}

// Stores x in word w and leaves every other byte. Answers nothing.
// Example: put_word(v, 1, 256) makes byte 9 a 1 and bytes 8 and 10 to 15 zeros.
pub fn put_word(v: &mut [u8], w: usize, x: u64)
    requires { 8 * w + 8 ≤ length v.old }
    ensures { v.new ≡ put_word v.old w x }
{
    let b = first_byte(w);
    v[b..b + 8].copy_from_slice(&x.to_le_bytes());
}

// Reads byte i and answers it.
// Example: of a slice whose word 1 is 256, byte_at(v, 9) is 1.
pub fn byte_at(v: &[u8], i: usize) -> u8
    requires { i < length v.now }
    ensures { result ≡ byte_at (word v.now) i }
{
    v[i]
}
