// The calls that the handheld's C firmware links: find, size and read of crate volume, each with its answer as one number. Crate firmware_c
// exports them for C, and crate host_calls beside the other calls.
#![tactic(auto)]

ghost use Rattle.std.specs.Prelude.{◌≡◌};
ghost use Rattle.model.specs.Public.{find_answer, size_answer, read_answer, read_buffer};
ghost use Rattle.answer.specs.Meaning.{numbered, code_of};

// Looks a name up in a folder and answers its inode, or minus the number of the refusal: 2 no volume, 3 damaged, 4 journal open,
// 5 bad name, 6 not there, 16 where the inode given as folder is a file.
// Example: where the name "A1" of inode 0 leads to inode 1, inode 0 and "A1" answer 1, "A2" -6 and the empty name -5.
pub fn volume_find(volume: &[u8], folder: u64, name: &[u8]) -> i64
    ensures { result ≡ code_of (numbered (find_answer volume.now folder name.now)) }
{
    answer::code(volume::find(volume, folder, name))
}

// Answers the size of a file in bytes, or minus the number of the refusal: 2 no volume, 3 damaged, 4 journal open,
// 6 not there, 16 a folder.
// Example: where inode 1 is a file of 514 bytes, inode 1 answers 514 and inode 0 -6.
pub fn volume_size(volume: &[u8], inode: u64) -> i64
    ensures { result ≡ code_of (numbered (size_answer volume.now inode)) }
{
    answer::code(volume::size(volume, inode))
}

// Lays a file's bytes from an offset on into a buffer, as many as the file has there and the buffer holds, and answers
// their count, or minus the number of the refusal: 2 no volume, 3 damaged, 4 journal open, 6 not there, 16 a folder. The rest of the
// buffer keeps its bytes, and of a refusal all of it.
// Example: where inode 1 is a file of 514 bytes, offset 510 and a buffer of 16 bytes answer 4 and fill the first 4;
// offset 514 answers 0, and inode 0 -6.
pub fn volume_read(volume: &[u8], inode: u64, offset: u64, buffer: &mut [u8]) -> i64
    ensures { (result ≡ code_of (numbered (read_answer volume.now inode offset buffer.old)))
        × (buffer.new ≡ read_buffer volume.now inode offset buffer.old) }
{
    answer::code(volume::read(volume, inode, offset, buffer))
}
