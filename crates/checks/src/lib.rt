// What the calls that change names ask of the folders and names given, behind the gate and before the pages: refusals 5 to 7, 16 to 18, 10
// and 11. v is the volume, which is accepted. The table of places is that of the gate: it holds the count names of inode 0, and is turned
// to the folders that the call names. In a file given as a folder no name stands, and none counts as absent.
#![tactic(auto)]

ghost use Rattle.std.specs.Prelude.{◌≡◌, not, ◌&&◌, ◌<◌, leb, eqb, length};
ghost use Rattle.model.specs.Words.{word};
ghost use Rattle.model.specs.Layout.{root, most_names};
ghost use Rattle.model.specs.Answer.{done, first_refusal};
ghost use Rattle.names.specs.Inodes.{Readable};
ghost use Rattle.names.specs.Listed.{Good, Lists};
ghost use Rattle.survey.specs.Surveyed.{TreeOf};
ghost use Rattle.answer.specs.Meaning.{meaning, done_meaning, numbered, plain};
ghost use Rattle.checks.specs.Names.{leads_in, new_inode, find_first, create_first, unlink_first, absent_in, has_names_in, given_comes};
ghost use Rattle.checks.specs.Names.{Led, Inodes, are_folders, link_last, are_same, is_onto, is_into, rename_comes};

use answer::Refusal;
use layout::{MOST_NAMES, Sizes};
use names::FolderNames;
use tree::Tree;

// The folders of a call with two names: those of the old name and of the new.
#[derive(Clone, Copy)]
pub struct TwoFolders {
    pub old: usize,
    pub new: usize,
}

// Where two names lead: an inode, or 0 where a name does not stand in its folder; and how many names the new one's folder has.
#[derive(Clone, Copy)]
pub struct Leads {
    pub old: usize,
    pub new: usize,
    pub count: usize,
}

// Answers what the table of places holds behind the gate: the count names of inode 0.
// Example: of_root(2) says that it holds two names of inode 0.
fn of_root(count: usize) -> FolderNames
    ensures { (result.folder ≡ root) × (result.count ≡ count) }
{
    FolderNames {
        folder: layout::ROOT,
        count,
    }
}

// Answers whether a name that leads to inode k in inode d, and to 0 where it does not stand there, counts as absent. In a file none does.
// Example: is_absent(v, 0, 0) is true and is_absent(v, 0, 3) false.
#[tactic(auto, unfolding(crate::specs::Names::absent_in))]
fn is_absent(v: &[u8], d: usize, k: usize) -> bool
    requires { Readable (word v.now) (length v.now) (word v.now 1) × (d < word v.now 1) }
    ensures { result ≡ absent_in v.now d k }
{
    k == 0 && names::is_directory(v, d)
}

// Answers the inode that a name of folder d leads to; refuses with BadName, NotThere where the folder or the name is not there, or WrongType
// where d is a file. The table holds the names of d then, if it is a folder.
// Example: where "A1" leads to inode 1, find_checks(v, 0, b"A1", places, 1) is Ok(1) and find_checks(v, 1, b"A1", places, 1)
// Err(Refusal::WrongType).
#[tactic(auto, unfolding(crate::specs::Names::find_first))]
pub fn find_checks(
    v: &[u8],
    d: usize,
    name: &[u8],
    places: &mut [u16; 224],
    count: usize,
) -> Result<u64, Refusal>
    requires { Good v.now × Lists v.now root count places.old }
    ensures { (meaning result ≡ numbered (first_refusal (find_first v.now d name.now)
        (done (leads_in v.now d name.now))))
        × (length places.new ≡ 224) }
{
    if !lookup::is_name(name) {
        return Err(Refusal::BadName);
    }
    let sizes = Sizes::of(v);
    if !names::is_valid(v, d, sizes.inodes) {
        return Err(Refusal::NotThere);
    }
    if !names::is_directory(v, d) {
        return Err(Refusal::WrongType);
    }
    let listed = names::turn(v, of_root(count), d, places);
    lookup::find_name(v, places, listed.count, name).ok_or(Refusal::NotThere)
}

// Answers the inode that a new file or folder of this name in folder d gets, the lowest that is not valid; refuses with BadName where it may
// not be given the name, NotThere where the folder is not there, Taken, WrongType where d is a file, NoInode or DirectoryFull.
// Example: of a volume just formatted create_checks(v, 0, b"A1", places, 0) is Ok(1) and create_checks(v, 0, b".", places, 0)
// Err(Refusal::BadName).
#[tactic(auto, unfolding(model::specs::Calls::create_action))]
pub fn create_checks(
    v: &[u8],
    d: usize,
    name: &[u8],
    places: &mut [u16; 224],
    count: usize,
) -> Result<u64, Refusal>
    requires { Good v.now × Lists v.now root count places.old }
    ensures { meaning result ≡ numbered (first_refusal (create_first v.now d name.now)
        (done (new_inode v.now))) }
{
    if !lookup::is_new_name(name) {
        return Err(Refusal::BadName);
    }
    let sizes = Sizes::of(v);
    if !names::is_valid(v, d, sizes.inodes) {
        return Err(Refusal::NotThere);
    }
    let n = names::turn(v, of_root(count), d, places).count;
    if lookup::find_name(v, places, n, name).is_some() {
        return Err(Refusal::Taken);
    }
    if !names::is_directory(v, d) {
        return Err(Refusal::WrongType);
    }
    let inode = names::free_inode(v, sizes.inodes as u64).ok_or(Refusal::NoInode)?;
    if MOST_NAMES <= n {
        return Err(Refusal::DirectoryFull);
    }
    Ok(inode)
}

// Answers whether inode k is a folder that has names. The table holds anything then.
// Example: where inode 3 is a file, has_names(v, 3, places) is false.
#[tactic(auto, unfolding(crate::specs::Names::has_names_in))]
fn has_names(v: &[u8], k: usize, places: &mut [u16; 224]) -> bool
    requires { Good v.now × (length places.old ≡ 224) }
    ensures { result ≡ has_names_in v.now k }
{
    names::list_names(v, k, places).count != 0
}

// Answers the inode that a name of folder d leads to; refuses with BadName, NotThere or WrongType as `find_checks` does, or with NotEmpty
// where it is a folder that has names.
// Example: where "A1" leads to inode 1, a file, unlink_checks(v, 0, b"A1", places, 1) is Ok(1); unlink_checks(v, 0, b"A2", places, 1)
// is Err(Refusal::NotThere).
pub fn unlink_checks(
    v: &[u8],
    d: usize,
    name: &[u8],
    places: &mut [u16; 224],
    count: usize,
) -> Result<u64, Refusal>
    requires { Good v.now × Lists v.now root count places.old }
    ensures { meaning result ≡ numbered (first_refusal (unlink_first v.now d name.now)
        (done (leads_in v.now d name.now))) }
{
    let inode = find_checks(v, d, name, places, count)?;
    if has_names(v, inode as usize, places) {
        return Err(Refusal::NotEmpty);
    }
    Ok(inode)
}

// Answers Ok where two names may be given and their folders are there; refuses with BadName where the old one is no name, or nothing may be
// given the new one, and with NotThere where one of the folders is out of range or not valid.
// Example: of a volume just formatted given(v, TwoFolders { old: 0, new: 0 }, b"A1", b"A2") is Ok(()), and of b"A1" and b"."
// Err(Refusal::BadName).
#[tactic(auto, unfolding(crate::specs::Names::given_first))]
pub fn given(v: &[u8], folders: TwoFolders, old: &[u8], new: &[u8]) -> Result<(), Refusal>
    requires { Good v.now }
    ensures { done_meaning result ≡ plain (given_comes v.now folders old.now new.now) }
{
    if !lookup::is_name(old) || !lookup::is_new_name(new) {
        return Err(Refusal::BadName);
    }
    let sizes = Sizes::of(v);
    if !names::is_valid(v, folders.old, sizes.inodes)
        || !names::is_valid(v, folders.new, sizes.inodes)
    {
        return Err(Refusal::NotThere);
    }
    Ok(())
}

// Answers where two names lead, each in its folder; the table holds the names of the new one's folder then.
// Example: where "A1" alone stands in inode 0 and leads to inode 1, look_up(v, TwoFolders { old: 0, new: 0 }, b"A1", b"A2", places, 1) has
// old 1, new 0 and count 1.
pub fn look_up(
    v: &[u8],
    folders: TwoFolders,
    old: &[u8],
    new: &[u8],
    places: &mut [u16; 224],
    count: usize,
) -> Leads
    requires { Good v.now × Lists v.now root count places.old }
    ensures { Led v.now folders old.now new.now result }
{
    let a = names::turn(v, of_root(count), folders.old, places);
    let i = lookup::find_name(v, places, a.count, old);
    let b = names::turn(v, a, folders.new, places);
    let j = lookup::find_name(v, places, b.count, new);
    Leads {
        old: i.unwrap_or(0) as usize,
        new: j.unwrap_or(0) as usize,
        count: b.count,
    }
}

// Answers whether both inodes given as folders are folders.
// Example: of inode 0 twice it is true.
#[tactic(auto, unfolding(crate::specs::Names::are_folders))]
fn are_directories(v: &[u8], folders: TwoFolders) -> bool
    requires { Good v.now × (folders.old < word v.now 1) × (folders.new < word v.now 1) }
    ensures { result ≡ are_folders v.now folders }
{
    names::is_directory(v, folders.old) && names::is_directory(v, folders.new)
}

// Answers the inode that the old name leads to; refuses with NotThere where it is absent, Taken where the new one stands, WrongType where a
// file is given as a folder or the old name leads to a folder, or DirectoryFull.
// Example: where "A1" leads to inode 1, a file, and is the only name, names "A1" and "A2" are Ok(1), and "A1" and "A1" Err(Refusal::Taken).
#[tactic(auto, unfolding(crate::specs::Names::link_last))]
pub fn link_checks(v: &[u8], folders: TwoFolders, leads: Leads) -> Result<u64, Refusal>
    requires { Good v.now × Inodes v.now folders leads }
    ensures { meaning result ≡ numbered (first_refusal (link_last v.now folders leads) (done leads.old)) }
{
    let inode = leads.old;
    if is_absent(v, folders.old, inode) {
        return Err(Refusal::NotThere);
    }
    if leads.new != 0 {
        return Err(Refusal::Taken);
    }
    if !are_directories(v, folders) || names::is_directory(v, inode) {
        return Err(Refusal::WrongType);
    }
    if MOST_NAMES <= leads.count {
        return Err(Refusal::DirectoryFull);
    }
    Ok(inode as u64)
}

// Answers whether both names lead to one inode.
// Example: where "A1" and "A2" lead to inode 1, it is true of these two.
#[tactic(auto, unfolding(crate::specs::Names::are_same))]
fn is_same(v: &[u8], folders: TwoFolders, leads: Leads) -> bool
    requires { Good v.now × Inodes v.now folders leads }
    ensures { result ≡ are_same v.now folders leads }
{
    are_directories(v, folders) && leads.old == leads.new
}

// Answers whether a rename would put a name onto a folder, or a folder onto a name that stands.
// Example: where the new name does not stand, it is false.
#[tactic(auto, unfolding(crate::specs::Names::is_onto))]
fn is_onto(v: &[u8], leads: Leads) -> bool
    requires { Good v.now × (leads.old < word v.now 1) × (leads.new < word v.now 1) }
    ensures { result ≡ is_onto v.now leads }
{
    leads.new != 0 && (names::is_directory(v, leads.old) || names::is_directory(v, leads.new))
}

// Answers whether the old name leads to a folder that would move into itself or beneath itself.
// Example: where it leads to a file, it is false.
#[tactic(auto, unfolding(crate::specs::Names::is_into))]
fn is_into_itself(v: &[u8], folders: TwoFolders, leads: Leads, tree: &Tree) -> bool
    requires { Good v.now × TreeOf (word v.now) tree.now × Inodes v.now folders leads }
    ensures { result ≡ is_into v.now folders leads }
{
    names::is_directory(v, leads.old)
        && tree.is_beneath(leads.old, folders.new, Sizes::of(v).inodes)
}

// Answers whether a move would give the new name's folder a 225th name.
// Example: inside one folder, or where the new name stands, it is false.
fn is_overfull(folders: TwoFolders, leads: Leads) -> bool
    ensures { result ≡ not (eqb folders.old folders.new) && not (not (eqb leads.new 0)) && leb most_names leads.count }
{
    folders.old != folders.new && leads.new == 0 && MOST_NAMES <= leads.count
}

// Answers the inode that the old name leads to, and 0 where both names lead to one inode, so that nothing changes; refuses with NotThere
// where the old name is absent, WrongType where a file is given as a folder or a folder is in the way, IntoItself or DirectoryFull.
// Example: where "A1" leads to inode 1 and is the only name, names "A1" and "A2" are Ok(1), "A1" and "A1" Ok(0) and "A2" and "A1"
// Err(Refusal::NotThere).
#[tactic(auto, unfolding(crate::specs::Names::rename_comes, crate::specs::Names::rename_last))]
pub fn rename_checks(
    v: &[u8],
    folders: TwoFolders,
    leads: Leads,
    tree: &Tree,
) -> Result<u64, Refusal>
    requires { Good v.now × TreeOf (word v.now) tree.now × Inodes v.now folders leads }
    ensures { meaning result ≡ numbered (rename_comes v.now folders leads) }
{
    if is_absent(v, folders.old, leads.old) {
        return Err(Refusal::NotThere);
    }
    if is_same(v, folders, leads) {
        return Ok(0);
    }
    if !are_directories(v, folders) || is_onto(v, leads) {
        return Err(Refusal::WrongType);
    }
    if is_into_itself(v, folders, leads, tree) {
        return Err(Refusal::IntoItself);
    }
    if is_overfull(folders, leads) {
        return Err(Refusal::DirectoryFull);
    }
    Ok(leads.old as u64)
}
