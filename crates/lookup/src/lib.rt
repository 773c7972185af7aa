// Names looked up: whether bytes are a name, the inode that a name leads to, and a name laid into a lent buffer. v is the volume.
// The names that stand are known by their places, which the crate `directory` puts into a table: a place is the first word of a
// name's add entry divided by 8.
#![tactic(auto)]

ghost use Rattle.std.specs.Prelude.{◌≡◌, true, ◌++◌, ◌+◌, ◌*◌, ◌≤◌, length, take, drop};
ghost use Rattle.model.specs.Lists.{all, same_list};
ghost use Rattle.model.specs.Words.{word};
ghost use Rattle.model.specs.Entry.{name_byte_ok, name_ok, is_dot_name, new_name_ok, padded};
ghost use Rattle.directory.specs.Fields.{name_at, field_at};
ghost use Rattle.directory.specs.Places.{standing, place_ok, Filled};
ghost use Rattle.lookup.specs.Found.{found_inode};

// Answers whether every byte is one that a name may have: not 0 and not "/".
// Example: of "ab" it is true, of "a/b" false, and of no bytes true.
fn bytes_ok(name: &[u8]) -> bool
    ensures { result ≡ all name_byte_ok name.now }
{
    name.iter().all(|x| *x != 0 && *x != b'/')
}

// Answers whether the bytes are a name that may stand: 1 to 32 of them, none 0 or 47.
// Example: "ab" and 32 times "a" are names; "", 33 times "a" and "a/b" are not.
pub fn is_name(name: &[u8]) -> bool
    ensures { result ≡ name_ok name.now }
{
    1 <= name.len() && name.len() <= layout::NAME_BYTES && bytes_ok(name)
}

// Answers whether the bytes are "." or "..", which POSIX keeps for a directory itself and its parent.
// Example: of "." and ".." it is true, of "...", ".a" and no bytes false.
fn is_dot_name(name: &[u8]) -> bool
    ensures { result ≡ is_dot_name name.now }
{
    name == b".".as_slice() || name == b"..".as_slice()
}

// Answers whether the bytes are a name that a file may be given: a name, and not "." or "..".
// Example: "ab", ".a" and "..." are such names; ".", ".." and "a/b" are not.
pub fn is_new_name(name: &[u8]) -> bool
    ensures { result ≡ new_name_ok name.now }
{
    is_name(name) && !is_dot_name(name)
}

// Reads the length of the name of the entry at a place, and answers it.
// Example: where the entry at place 264 adds "ab" to inode 5, length_at(v, 264) is 2.
fn length_at(v: &[u8], place: usize) -> u64
    requires { (64 * place + 64 ≤ length v.now) × (field_at (word v.now) (8 * place) ≡ true) }
    ensures { (result ≡ word v.now (8 * place + 2)) × (result ≤ 32) }
{
    words::word_at(v, 8 * place + 2)
}

// Answers whether the entry at a place has a name: whether its name is as long and has the same bytes.
// Example: where the entry at place 264 adds "ab", has_name(v, 264, "ab") is true, and of "a", "abc" and "ba" it is false.
fn has_name(v: &[u8], place: usize, name: &[u8]) -> bool
    requires { (64 * place + 64 ≤ length v.now) × (field_at (word v.now) (8 * place) ≡ true) }
    ensures { result ≡ same_list (name_at (word v.now) (8 * place)) name.now }
{
    let at = 8 * (8 * place + 3);
    let n = length_at(v, place) as usize;
    &v[at..at + n] == name
}

// Looks a name up among the first count places of a table, and answers the inode that it leads to; None where it does not stand
// there. No name leads to inode 0: an entry that says so counts as none.
// Example: where the entries at places 264 and 265 add "a" to inode 3 and "b" to inode 5 and the table begins with these two,
// find_name(v, places, 2, "b") is Some(5), and find_name(v, places, 1, "b") and find_name(v, places, 2, "c") are None.
pub fn find_name(v: &[u8], places: &[u16; 224], count: usize, name: &[u8]) -> Option<u64>
    requires { Filled (word v.now) (length v.now) count places.now }
    ensures { result ≡ found_inode (standing (word v.now) (take count places.now)) name.now }
{
    for p in &places[..count] {
        let p = usize::from(*p);
        if has_name(v, p, name) {
            let inode = directory::inode_at(v, p) as u64;
            return (inode != 0).then_some(inode);
        }
    }
    None
}

// Lays the name of the entry at a place, filled up with zeros, into the first 32 bytes of a buffer, leaves the rest of the buffer,
// and answers the name's length.
// Example: where the entry at place 264 adds "ab", lay_name(v, 264, buffer) is 2, and the buffer then begins 97, 98 and 30 zeros.
pub fn lay_name(v: &[u8], place: usize, buffer: &mut [u8]) -> u64
    requires { (place_ok (word v.now) (length v.now) place ≡ true) × (32 ≤ length buffer.old) }
    ensures { (result ≡ length (name_at (word v.now) (8 * place)))
        × (buffer.new ≡ padded (name_at (word v.now) (8 * place)) ++ drop 32 buffer.old) }
{
    let at = 8 * (8 * place + 3);
    buffer[..layout::NAME_BYTES].copy_from_slice(&v[at..at + layout::NAME_BYTES]);
    length_at(v, place)
}
