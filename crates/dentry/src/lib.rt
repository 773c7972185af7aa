// Entries of a directory's log, judged: each from what it says and the volume's sizes alone.
#![tactic(auto)]

ghost use Rattle.std.specs.Prelude.{◌≡◌};
ghost use Rattle.model.specs.Entry.{add_entry, field_ok, name_entry_ok};
ghost use Rattle.inode_log.specs.Entries.{field_of, meant};
ghost use Rattle.dentry.specs.Fields.{word_ok, bytes_in};

use inode_log::{Entry, Name};

// Answers whether the lowest n bytes of a word are bytes that a name may have and the others are 0.
// Example: of 25185 ("ab") word_ok(25185, 2) is true; word_ok(25185, 1) and word_ok(25185, 3) are false.
fn word_ok(word: u64, n: u64) -> bool
    ensures { result ≡ word_ok n word }
{
    let mut x = word;
    for _ in 0..n {
        let b = x % 256;
        if b == 0 || b == 47 {
            return false;
        }
        x = x / 256;
    }
    x == 0
}

// Answers how many of a name's len bytes stand in the word that starts at its byte from.
// Example: of a name of 10 bytes bytes_in(10, 0) is 8, bytes_in(10, 8) is 2 and bytes_in(10, 16) is 0.
fn bytes_in(len: u64, from: u64) -> u64
    ensures { result ≡ bytes_in len from }
{
    len.saturating_sub(from).min(8)
}

// Answers whether a name is as it should be: 1 to 32 bytes, none of them 0 or 47, then zeros.
// Example: of a name of length 2 it is true where its words are 25185 ("ab"), 0, 0 and 0, and false where the last is 1.
fn name_ok(name: Name) -> bool
    ensures { result ≡ field_ok name.len (field_of name) }
{
    let len = name.len;
    1 <= len
        && len <= 32
        && word_ok(name.first, bytes_in(len, 0))
        && word_ok(name.second, bytes_in(len, 8))
        && word_ok(name.third, bytes_in(len, 16))
        && word_ok(name.fourth, bytes_in(len, 24))
}

// Answers whether an entry that adds a name which leads to inode is one that a directory's log may hold.
// Example: with 8 inodes an entry that adds "ab" to inode 7 is, and one that adds it to inode 0 or 8 is not.
fn add_ok(inode: u64, name: Name, inodes: u64) -> bool
    ensures { result ≡ name_entry_ok inodes (add_entry inode name.len (field_of name)) }
{
    1 <= inode && inode < inodes && name_ok(name)
}

// Answers whether an entry is one that a directory's log may hold.
// Example: an entry that sets a size is none, and one that removes "a/b" is none.
pub fn entry_ok(e: Entry, inodes: usize) -> bool
    ensures { result ≡ name_entry_ok inodes (meant e) }
{
    match e {
        Entry::Add { inode, name } => add_ok(inode, name, inodes as u64),
        Entry::Remove(name) => name_ok(name),
        Entry::Write { .. } | Entry::SetSize(_) | Entry::None => false,
    }
}
