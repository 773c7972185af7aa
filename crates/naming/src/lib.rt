// The calls that change names: create, create folder, link, unlink and rename. Each takes any bytes and numbers, works from the lent volume
// v alone and fills a lent store list; a refusal leaves the list as it was.
#![tactic(auto)]

ghost use Rattle.std.specs.Prelude.{◌≡◌, []};
ghost use Rattle.model.specs.FileMap.{create, create_folder, link, unlink, rename};
ghost use Rattle.layout.specs.Kind.{type_of};
ghost use Rattle.answer.specs.Comes.{Comes, Fills};
ghost use Rattle.append.specs.Appended.{action_of, outcome, Ready};
ghost use Rattle.naming.specs.Folder.{folder_append, rename_append, make_call};

use answer::Refusal;
use append::Append;
use checks::TwoFolders;
use layout::Kind;
use marks::Marks;
use tree::Tree;

// Answers an append to the log of folder d; together with its tail the valid word of inode `other`, if that is not 0, becomes `valid`, and
// a new inode is of this kind.
// Example: to_folder(0, true, 1, 1, Kind::File) makes inode 1 a file and keeps the last free page, and to_folder(0, false, 1, 0, Kind::File)
// lets inode 1 go and may take it.
fn to_folder(d: usize, keeps: bool, other: usize, valid: u64, kind: Kind) -> Append
    ensures { result ≡ folder_append d keeps other valid (type_of kind) }
{
    Append {
        log: d,
        anew: false,
        file: 0,
        size: 0,
        second: layout::ROOT,
        moved: 0,
        other,
        valid,
        kind: kind.into(),
        keeps,
    }
}

// Answers an append of two entries to the log of the old folder or, where the folders differ, of the first to that one and of the second to
// the new folder's. Inode `last`, if that is not 0, is let go.
// Example: between_folders(TwoFolders { old: 0, new: 0 }, 0) appends both to the log of inode 0.
fn between_folders(folders: TwoFolders, last: usize) -> Append
    ensures { result ≡ rename_append folders last }
{
    let inside = to_folder(folders.old, false, last, 0, Kind::File);
    if folders.old == folders.new {
        return inside;
    }
    Append {
        second: folders.new,
        moved: 1,
        ..inside
    }
}

// Makes an append of entries, eight words each, that has no data. Answers the count of words filled, or refuses by NoSpace or LastPage.
// Example: where the tail's page of the folder has room for an entry, one entry fills 22 words, and 40 where inode 1 is let go.
fn append_entries(
    v: &[u8],
    marks: &mut Marks,
    a: Append,
    entries: &[u64],
    list: &mut [u64],
) -> Result<u64, Refusal>
    requires { Ready v.now marks.old a entries.now [] list.old }
    ensures { Comes (outcome v.now (action_of a entries.now [])) list.old result list.new }
{
    let none = [0u64; 1];
    append::make(v, marks, a, entries, &none[..0], list)
}

// Makes a new, empty inode of a kind with a name in a folder: what create and create_folder do.
// Example: of 16 pages just formatted with 8 inodes make(v, 0, b"A1", Kind::File, list) is Ok(48).
fn make(v: &[u8], folder: u64, name: &[u8], kind: Kind, list: &mut [u64]) -> Result<u64, Refusal>
    ensures { Fills v.now list.old (make_call kind folder name.now) result list.new }
{
    let mut places = [0u16; 224];
    let mut marks = Marks::new();
    let mut tree = Tree::new();
    let d = folder as usize;
    let count = gate::filling(v, list.len(), &mut places, &mut marks, &mut tree)?;
    let inode = checks::create_checks(v, d, name, &mut places, count)?;
    let e = entries::add_words(inode, name);
    let a = to_folder(d, true, inode as usize, 1, kind);
    append_entries(v, &mut marks, a, &e, list)
}

// Makes a new, empty file with a name in a folder: fills the list with the stores that add the name and make the lowest invalid inode
// valid.
// Answers the count of words filled. No file or folder gets the name "." or "..": that is BadName, here and as the new name of link and
// rename.
// Refusals: ShortMemory, NoVolume, Damaged, JournalOpen, BadName, NotThere, Taken, WrongType, NoInode, DirectoryFull, NoSpace, LastPage.
// Example: of 16 pages just formatted with 8 inodes create(v, 0, b"A1", list) is Ok(48); carried out, "A1" leads to inode 1.
pub fn create(v: &[u8], folder: u64, name: &[u8], list: &mut [u64]) -> Result<u64, Refusal>
    ensures { Fills v.now list.old (create folder name.now) result list.new }
{
    make(v, folder, name, Kind::File, list)
}

// Makes a new folder without names in a folder, as `create` makes a file, and with the same refusals.
// Example: of 16 pages just formatted with 8 inodes create_folder(v, 0, b"A", list) is Ok(48); carried out, "A" leads to inode 1.
pub fn create_folder(v: &[u8], folder: u64, name: &[u8], list: &mut [u64]) -> Result<u64, Refusal>
    ensures { Fills v.now list.old (create_folder folder name.now) result list.new }
{
    make(v, folder, name, Kind::Folder, list)
}

// Gives a file a further name: fills the list with the stores that add the new name for the inode of the old one. Answers the count of
// words filled.
// Refusals: ShortMemory, NoVolume, Damaged, JournalOpen, BadName, NotThere, Taken, WrongType, DirectoryFull, NoSpace, LastPage.
// Example: where "A1" is the only name and the log page of inode 0 has room for an entry, link(v, 0, b"A1", 0, b"A2", list) is Ok(22),
// and link(v, 0, b"A1", 0, b"A1", list) Err(Refusal::Taken).
pub fn link(
    v: &[u8],
    old_folder: u64,
    old: &[u8],
    new_folder: u64,
    new: &[u8],
    list: &mut [u64],
) -> Result<u64, Refusal>
    ensures { Fills v.now list.old
        (link old_folder old.now new_folder new.now) result list.new }
{
    let mut places = [0u16; 224];
    let mut marks = Marks::new();
    let mut tree = Tree::new();
    let folders = TwoFolders {
        old: old_folder as usize,
        new: new_folder as usize,
    };
    let count = gate::filling(v, list.len(), &mut places, &mut marks, &mut tree)?;
    checks::given(v, folders, old, new)?;
    let leads = checks::look_up(v, folders, old, new, &mut places, count);
    let inode = checks::link_checks(v, folders, leads)?;
    let e = entries::add_words(inode, new);
    let a = to_folder(folders.new, true, 0, 0, Kind::File);
    append_entries(v, &mut marks, a, &e, list)
}

// Takes a name away: fills the list with the stores that remove it and, where it is the last name of its file or that of a folder, make the
// inode invalid. Answers the count of words filled.
// Refusals: ShortMemory, NoVolume, Damaged, JournalOpen, BadName, NotThere, WrongType, NotEmpty, NoSpace.
// Example: where "A1" is the only name of inode 1 and the log page of inode 0 has room for an entry, unlink(v, 0, b"A1", list) is
// Ok(40).
pub fn unlink(v: &[u8], folder: u64, name: &[u8], list: &mut [u64]) -> Result<u64, Refusal>
    ensures { Fills v.now list.old (unlink folder name.now) result list.new }
{
    let mut places = [0u16; 224];
    let mut marks = Marks::new();
    let mut tree = Tree::new();
    let d = folder as usize;
    let count = gate::filling(v, list.len(), &mut places, &mut marks, &mut tree)?;
    let inode = checks::unlink_checks(v, d, name, &mut places, count)?;
    let last = tree.released(inode as usize);
    let e = entries::remove_words(name);
    let a = to_folder(d, false, last, 0, Kind::File);
    append_entries(v, &mut marks, a, &e, list)
}

// Gives a file or folder another name in place of one, in the same folder or in another: fills the list with the stores that remove the old
// name, add the new one for its inode and, where the new name was the last of another file, make that file's inode invalid. Nothing is
// filled where both names lead to one inode. Answers the count of words filled.
// Refusals: ShortMemory, NoVolume, Damaged, JournalOpen, BadName, NotThere, WrongType, IntoItself, DirectoryFull, NoSpace.
// Example: where "A1" is the only name and the log page of inode 0 has room for two entries, rename(v, 0, b"A1", 0, b"A2", list) is
// Ok(38), and rename(v, 0, b"A1", 0, b"A1", list) Ok(0).
pub fn rename(
    v: &[u8],
    old_folder: u64,
    old: &[u8],
    new_folder: u64,
    new: &[u8],
    list: &mut [u64],
) -> Result<u64, Refusal>
    ensures { Fills v.now list.old
        (rename old_folder old.now new_folder new.now) result list.new }
{
    let mut places = [0u16; 224];
    let mut marks = Marks::new();
    let mut tree = Tree::new();
    let folders = TwoFolders {
        old: old_folder as usize,
        new: new_folder as usize,
    };
    let count = gate::filling(v, list.len(), &mut places, &mut marks, &mut tree)?;
    checks::given(v, folders, old, new)?;
    let leads = checks::look_up(v, folders, old, new, &mut places, count);
    let inode = checks::rename_checks(v, folders, leads, &tree)?;
    if inode == 0 {
        return Ok(0);
    }
    let last = tree.released(leads.new);
    let mut words = [0u64; 16];
    entries::put_entry(&mut words, 0, &entries::remove_words(old));
    entries::put_entry(&mut words, 1, &entries::add_words(inode, new));
    append_entries(v, &mut marks, between_folders(folders, last), &words, list)
}
