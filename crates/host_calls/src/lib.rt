// The calls of crate volume for programs on the host: tests, benchmarks and the office's tools; gaps has its pairs as words,
// by crate gaps. Each has its answer as one number: the call's number, 0 where it has none, or minus the number of the
// refusal. A slice is a pointer and then a length in C:
//     int64_t volume_format(uint8_t *volume, size_t volume_len, uint64_t pages, uint64_t inodes);
//     int64_t volume_carry_out(uint8_t *volume, size_t volume_len, const uint64_t *list, size_t list_len, uint64_t count);
//     int64_t volume_find(const uint8_t *volume, size_t volume_len, uint64_t folder, const uint8_t *name, size_t name_len);
//     int64_t volume_size(const uint8_t *volume, size_t volume_len, uint64_t inode);
//     int64_t volume_read(const uint8_t *volume, size_t volume_len, uint64_t inode, uint64_t offset,
//         uint8_t *buffer, size_t buffer_len);
//     int64_t volume_kth_name(const uint8_t *volume, size_t volume_len, uint64_t folder, uint64_t k, uint8_t *buffer, size_t buffer_len);
//     int64_t volume_total(const uint8_t *volume, size_t volume_len, uint64_t folder);
//     int64_t volume_free_count(const uint8_t *volume, size_t volume_len);
//     int64_t volume_gaps(const uint8_t *volume, size_t volume_len, uint64_t *pairs, size_t pairs_len);
//     int64_t volume_create(const uint8_t *volume, size_t volume_len, uint64_t folder, const uint8_t *name, size_t name_len,
//         uint64_t *list, size_t list_len);
// and likewise volume_create_folder and volume_unlink; volume_link and volume_rename with two folders and names, each folder before its
// name; volume_write with inode, offset and bytes; volume_set_size with inode and size; volume_clean with an inode; volume_recover.
// find, size and read hand on to crate firmware: a static library exports the functions of its own crate alone.
#![tactic(auto)]

ghost use Rattle.std.specs.Prelude.{◌≡◌, ◌/◌, length};
ghost use Rattle.model.specs.Public.{format_answer, format_volume, carry_answer, carry_volume, find_answer, total_answer, size_answer};
ghost use Rattle.model.specs.Public.{read_answer, read_buffer, kth_name_answer, kth_name_buffer, free_answer, gaps_answer, gaps_words};
ghost use Rattle.model.specs.FileMap.{create, create_folder, link, unlink, rename, write, set_size, clean, recover};
ghost use Rattle.answer.specs.Meaning.{plain, numbered, code_of};
ghost use Rattle.answer.specs.Comes.{Returns};

// Makes the bytes a new volume with so many pages and inodes, an empty directory and no files. Answers 0, or minus the
// number of the refusal, 2 no volume, where a volume may not have these sizes or the bytes are not that many pages; they
// are then left as they were.
// Example: of 8,192 bytes 16 pages and 8 inodes answer 0, and 17 pages and 8 inodes -2.
#[unsafe(no_mangle)]
pub extern "C" fn volume_format(volume: &mut [u8], pages: u64, inodes: u64) -> i64
    ensures answer { result ≡ code_of (plain (format_answer volume.old pages inodes)) }
    ensures bytes { volume.new ≡ format_volume volume.old pages inodes }
{
    answer::done_code(volume::format(volume, pages, inodes))
}

// Carries out the first count words of a list as a store list. Answers 0, or minus the number of the refusal: 2 no
// volume, 13 bad list; every byte is then left as it was.
// Example: of the list 66, 1088, 2^64-1, 0 a count of 4 answers 0 and makes word 66 1088; counts of 2, 3 and 6 answer
// -13.
#[unsafe(no_mangle)]
pub extern "C" fn volume_carry_out(volume: &mut [u8], list: &[u64], count: u64) -> i64
    ensures answer { result ≡ code_of (plain (carry_answer volume.old list.now count)) }
    ensures bytes { volume.new ≡ carry_volume volume.old list.now count }
{
    answer::done_code(volume::carry_out(volume, list, count))
}

// Looks a name up in a folder and answers its inode, or minus the number of the refusal: 2 no volume, 3 damaged, 4 journal open,
// 5 bad name, 6 not there, 16 where the inode given as folder is a file.
// Example: where the name "A1" of inode 0 leads to inode 1, inode 0 and "A1" answer 1, "A2" -6 and the empty name -5.
#[unsafe(no_mangle)]
pub extern "C" fn volume_find(volume: &[u8], folder: u64, name: &[u8]) -> i64
    ensures { result ≡ code_of (numbered (find_answer volume.now folder name.now)) }
{
    firmware::volume_find(volume, folder, name)
}

// Answers the size of a file in bytes, or minus the number of the refusal: 2 no volume, 3 damaged, 4 journal open,
// 6 not there, 16 a folder.
// Example: where inode 1 is a file of 514 bytes, inode 1 answers 514 and inode 0 -6.
#[unsafe(no_mangle)]
pub extern "C" fn volume_size(volume: &[u8], inode: u64) -> i64
    ensures { result ≡ code_of (numbered (size_answer volume.now inode)) }
{
    firmware::volume_size(volume, inode)
}

// Lays a file's bytes from an offset on into a buffer, as many as the file has there and the buffer holds, and answers
// their count, or minus the number of the refusal: 2 no volume, 3 damaged, 4 journal open, 6 not there, 16 a folder. The rest of the
// buffer keeps its bytes, and of a refusal all of it.
// Example: where inode 1 is a file of 514 bytes, offset 510 and a buffer of 16 bytes answer 4 and fill the first 4;
// offset 514 answers 0, and inode 0 -6.
#[unsafe(no_mangle)]
pub extern "C" fn volume_read(volume: &[u8], inode: u64, offset: u64, buffer: &mut [u8]) -> i64
    ensures { (result ≡ code_of (numbered (read_answer volume.now inode offset buffer.old)))
        × (buffer.new ≡ read_buffer volume.now inode offset buffer.old) }
{
    firmware::volume_read(volume, inode, offset, buffer)
}

// Lays the k-th name of a folder, counted from 0, into the first 32 bytes of a buffer, zeros after it, and answers its length, or
// minus the number of the refusal: 1 short memory, 2 no volume, 3 damaged, 4 journal open, 6 not there, 16 where the inode given as folder
// is a file; the buffer is then left as it was.
// Example: where "A1" is the only name of inode 0, inode 0 and k 0 answer 2 and make the buffer begin with 65, 49 and 30 zeros; k 1 answers
// -6.
#[unsafe(no_mangle)]
pub extern "C" fn volume_kth_name(volume: &[u8], folder: u64, k: u64, buffer: &mut [u8]) -> i64
    ensures { (result ≡ code_of (numbered (kth_name_answer volume.now folder k buffer.old)))
        × (buffer.new ≡ kth_name_buffer volume.now folder k buffer.old) }
{
    answer::code(volume::kth_name(volume, folder, k, buffer))
}

// Answers the bytes beneath a folder, or minus the number of the refusal: 2 no volume, 3 damaged, 4 journal open, 6 not there, 16 where the
// inode given as folder is a file.
// Example: where "A1" and "A2" of inode 0 lead to one file of 514 bytes and nothing else stands there, inode 0 answers 1028.
#[unsafe(no_mangle)]
pub extern "C" fn volume_total(volume: &[u8], folder: u64) -> i64
    ensures { result ≡ code_of (numbered (total_answer volume.now folder)) }
{
    answer::code(volume::total(volume, folder))
}

// Answers the count of free pages, or minus the number of the refusal: 2 no volume, 3 damaged, 4 journal open.
// Example: of 16 pages just formatted with 8 inodes it answers 14.
#[unsafe(no_mangle)]
pub extern "C" fn volume_free_count(volume: &[u8]) -> i64
    ensures { result ≡ code_of (numbered (free_answer volume.now)) }
{
    answer::code(volume::free_count(volume))
}

// Fills a list of words with the gaps, the longest stretches of free pages, by ascending first page: two words for each, its first page and
// its length. Answers the count of gaps filled, or minus the number of the refusal: 2 no volume, 3 damaged, 4 journal open, 14 too many
// gaps. The words behind the last pair keep their content, a last one that is none of a pair too, and of a refusal all words.
// Example: of 16 pages just formatted with 8 inodes and three words it answers 1, and makes the first two words 2 and 14;
// with one word -14.
#[unsafe(no_mangle)]
pub extern "C" fn volume_gaps(volume: &[u8], pairs: &mut [u64]) -> i64
    ensures { (result ≡ code_of (numbered (gaps_answer volume.now (length pairs.old / 2))))
        × (pairs.new ≡ gaps_words volume.now pairs.old) }
{
    answer::code(gaps::list_words(volume, pairs))
}

// Fills a store list that makes a new, empty file with a name in a folder. Answers the count of words filled, or minus the number of the
// refusal: 1 short memory, 2 no volume, 3 damaged, 4 journal open, 5 bad name, 6 not there, 7 taken, 16 where the inode given as folder is
// a file, 10 no inode, 11 directory full, 12 no space, 15 last page; the list is then left as it was, here and below. The names "." and
// ".." are 5, here and as the new name of link and rename.
// Example: of 16 pages just formatted with 8 inodes inode 0 and the name "A1" answer 48.
#[unsafe(no_mangle)]
pub extern "C" fn volume_create(volume: &[u8], folder: u64, name: &[u8], list: &mut [u64]) -> i64
    ensures { Returns volume.now list.old (create folder name.now) result list.new }
{
    answer::code(volume::create(volume, folder, name, list))
}

// Fills a store list that makes a new folder without names, and answers as volume_create does.
// Example: of 16 pages just formatted with 8 inodes inode 0 and the name "A" answer 48.
#[unsafe(no_mangle)]
pub extern "C" fn volume_create_folder(
    volume: &[u8],
    folder: u64,
    name: &[u8],
    list: &mut [u64],
) -> i64
    ensures { Returns volume.now list.old (create_folder folder name.now) result list.new }
{
    answer::code(volume::create_folder(volume, folder, name, list))
}

// Fills a store list that gives a file a further name, the new one in the second folder. Answers the count of words filled, or minus the
// number of the refusal: 1 to 5, 6 not there, 7 taken, 16 where an inode given as folder is a file or the old name leads to a folder,
// 11 directory full, 12 no space, 15 last page.
// Example: where "A1" is the only name and the log page of inode 0 has room for an entry, "A1" and "A2" in inode 0 answer 22, and "A1" and
// "A1" -7.
#[unsafe(no_mangle)]
pub extern "C" fn volume_link(
    volume: &[u8],
    old_folder: u64,
    old: &[u8],
    new_folder: u64,
    new: &[u8],
    list: &mut [u64],
) -> i64
    ensures { Returns volume.now list.old
        (link old_folder old.now new_folder new.now) result list.new }
{
    answer::code(volume::link(volume, old_folder, old, new_folder, new, list))
}

// Fills a store list that takes a name away, and its file if it is the last, or its folder. Answers the count of words filled, or minus the
// number of the refusal: 1 to 5, 6 not there, 16 where the inode given as folder is a file, 17 a folder that has names, 12 no space.
// Example: where "A1" is the only name of inode 1 and the log page of inode 0 has room for an entry, it answers 40.
#[unsafe(no_mangle)]
pub extern "C" fn volume_unlink(volume: &[u8], folder: u64, name: &[u8], list: &mut [u64]) -> i64
    ensures { Returns volume.now list.old (unlink folder name.now) result list.new }
{
    answer::code(volume::unlink(volume, folder, name, list))
}

// Fills a store list that gives a file or folder another name in place of one, the new one in the second folder. Answers the count of words
// filled, 0 where both names lead to one inode, or minus the number of the refusal: 1 to 5, 6 not there, 16 where an inode given as folder
// is a file or a folder is in the way, 18 where a folder would move into or beneath itself, 11 directory full, 12 no space.
// Example: where "A1" is the only name, "A1" and "A1" in inode 0 answer 0.
#[unsafe(no_mangle)]
pub extern "C" fn volume_rename(
    volume: &[u8],
    old_folder: u64,
    old: &[u8],
    new_folder: u64,
    new: &[u8],
    list: &mut [u64],
) -> i64
    ensures { Returns volume.now list.old
        (rename old_folder old.now new_folder new.now) result list.new }
{
    answer::code(volume::rename(volume, old_folder, old, new_folder, new, list))
}

// Fills a store list that writes bytes into a file from an offset on. Answers the count of words filled, 0 for no bytes, or minus the
// number of the refusal: 1 to 4, 6 not there, 16 a folder, 8 over 4,096 bytes, 9 past the end, 12 no space, 15 last page.
// Example: of a file that was just made, 4 bytes at offset 510 answer 280.
#[unsafe(no_mangle)]
pub extern "C" fn volume_write(
    volume: &[u8],
    inode: u64,
    offset: u64,
    bytes: &[u8],
    list: &mut [u64],
) -> i64
    ensures { Returns volume.now list.old (write inode offset bytes.now) result list.new }
{
    answer::code(volume::write(volume, inode, offset, bytes, list))
}

// Fills a store list that changes the size of a file. Answers the count of words filled, 0 where the size is the same, or minus the number
// of the refusal: 1 to 4, 6 not there, 16 a folder, 9 past the end, 12 no space, 15 last page.
// Example: of a file of 514 bytes, size 514 answers 0.
#[unsafe(no_mangle)]
pub extern "C" fn volume_set_size(volume: &[u8], inode: u64, size: u64, list: &mut [u64]) -> i64
    ensures { Returns volume.now list.old (set_size inode size) result list.new }
{
    answer::code(volume::set_size(volume, inode, size, list))
}

// Fills a store list that writes the log of an inode anew, without entries that no longer count. Answers the count of words filled, 0 for
// an empty log, or minus the number of the refusal: 1 to 4, 6 not there, 12 no space.
// Example: of a volume just formatted inode 0 answers 0.
#[unsafe(no_mangle)]
pub extern "C" fn volume_clean(volume: &[u8], inode: u64, list: &mut [u64]) -> i64
    ensures { Returns volume.now list.old (clean inode) result list.new }
{
    answer::code(volume::clean(volume, inode, list))
}

// Fills a store list that puts back what an open journal holds and closes it. Answers the count of words filled, 0 where the journal is
// closed, or minus the number of the refusal: 1 short memory, 2 no volume, 3 damaged.
// Example: of a volume just formatted it answers 0.
#[unsafe(no_mangle)]
pub extern "C" fn volume_recover(volume: &[u8], list: &mut [u64]) -> i64
    ensures { Returns volume.now list.old recover result list.new }
{
    answer::code(volume::recover(volume, list))
}
