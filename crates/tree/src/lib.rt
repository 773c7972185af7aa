// The tree of folders, as a table with a node for each inode: its state and its parent. The state says what the inode is and how many names
// were noted of it; the parent is the lowest folder that has one, inode 0 where none has. The folders are noted from the highest inode to
// inode 0, so that the parent is the folder noted last. Nothing here looks at the volume.
#![tactic(auto)]

ghost use Rattle.std.specs.Prelude.{◌≡◌, true, cond, ◌≤◌, ◌<◌, ◌+◌, List, ℕ, Option, eqb, leb, map, length, replicate};
ghost use Rattle.tree.specs.Table.{state_in, parent_in, with_state, after_name, may_name, noted, above_in, Unsettled, SettlesAll};
ghost use Rattle.tree.specs.Node.{state_number, state_number_or, node_number, ParentsFit};
ghost use Rattle.tree.specs.Way.{meets_in, way_marked, passes, passed};
ghost use Rattle.tree.specs.Numbers.{known_state, known, reached};

use std::marker::Model;

// What an inode is, and how many names were noted of it. specs/Node.antt gives the number of each case.
#[derive(Clone, Copy, PartialEq, Eq)]
pub enum State {
    // not valid
    Free,
    // a file of which no name was noted
    File,
    // a file with one name
    FileOnce,
    // a file with two names or more
    FileOften,
    // a folder of which no name was noted
    Folder,
    // a folder with one name
    FolderNamed,
    // a folder with one name that is reached from inode 0, or inode 0 itself
    FolderReached,
}

impl State {
    // Answers whether it is that of a folder.
    // Example: State::FolderNamed.is_folder() is true.
    pub fn is_folder(self) -> bool
        ensures { result ≡ leb 4 (state_number self) }
    {
        match self {
            State::Folder | State::FolderNamed | State::FolderReached => true,
            State::Free | State::File | State::FileOnce | State::FileOften => false,
        }
    }

    // Answers whether it is that of a folder that is reached from inode 0.
    // Example: State::FolderReached.is_reached() is true, and State::FolderNamed.is_reached() is false.
    fn is_reached(self) -> bool
        ensures { result ≡ eqb (state_number self) 6 }
    {
        match self {
            State::FolderReached => true,
            State::Free
            | State::File
            | State::FileOnce
            | State::FileOften
            | State::Folder
            | State::FolderNamed => false,
        }
    }

    // Answers the state after one name more, None where no inode may have that name: one that is not valid none, and a folder no second
    // one.
    // Example: State::File.after_name() is Some(State::FileOnce), and State::FolderNamed.after_name() is None.
    #[tactic(auto, unfolding(crate::specs::Table::after_name))]
    fn after_name(self) -> Option<State>
        ensures { state_number_or result ≡ after_name (state_number self) }
    {
        match self {
            State::File => Some(State::FileOnce),
            State::FileOnce | State::FileOften => Some(State::FileOften),
            State::Folder => Some(State::FolderNamed),
            State::Free | State::FolderNamed | State::FolderReached => None,
        }
    }
}

impl From<u16> for State {
    ghost from_gives = { λ number state. state_number state ≡ known_state number };

    // Answers the state of a number; State::Free where it is the number of none.
    // Example: State::from(5) is State::FolderNamed, and State::from(7) is State::Free.
    #[tactic(auto, unfolding(crate::specs::Numbers::known_state))]
    fn from(number: u16) -> State {
        match number {
            1 => State::File,
            2 => State::FileOnce,
            3 => State::FileOften,
            4 => State::Folder,
            5 => State::FolderNamed,
            6 => State::FolderReached,
            _ => State::Free,
        }
    }
}

// What the table has of an inode.
#[derive(Clone, Copy)]
struct Node {
    state: State,
    parent: u8,
}

// The table. In a clause it is a list of numbers, 256 times the state of an inode and its parent (specs/Table.antt).
#[derive(Drop)]
pub struct Tree {
    nodes: [Node; 256],
}

impl Model for Tree {
    ghost Value = { List ℕ };

    ghost view = { λ t. map node_number t.nodes };

    ghost invariant = { λ t. (length t.nodes ≡ 256) × ParentsFit t.nodes };
}

impl Tree {
    // Answers a table in which no inode is valid.
    // Example: Tree::new().state(3) is State::Free.
    pub fn new() -> Tree
        ensures { result ≡ replicate 256 0 }
    {
        Tree {
            nodes: [Node {
                state: State::Free,
                parent: 0,
            }; 256],
        }
    }

    // Answers the state of inode k.
    // Example: after put(3, State::FolderNamed, 2) state(3) is State::FolderNamed.
    pub fn state(&self, k: usize) -> State
        requires { k < 256 }
        ensures { state_number result ≡ state_in self.now k }
    {
        self.nodes[k].state
    }

    // Answers the parent of inode k.
    // Example: after put(3, State::FolderNamed, 2) parent(3) is 2.
    pub fn parent(&self, k: usize) -> usize
        requires { k < 256 }
        ensures { (result ≡ parent_in self.now k) × (result < 256) }
    {
        usize::from(self.nodes[k].parent)
    }

    // Gives inode k a state and a parent. Answers nothing.
    // Example: after put(3, State::FolderNamed, 2) inode 3 is a folder with one name, in folder 2.
    pub fn put(&mut self, k: usize, state: State, parent: usize)
        requires { (k < 256) × (parent < 256) }
        ensures { self.new ≡ with_state self.old k (state_number state) parent }
    {
        self.nodes[k] = Node {
            state,
            parent: parent as u8,
        };
    }

    // Notes a name of folder d that leads to inode k. Answers whether inode k may have it; else it leaves the table.
    // Example: where inode 5 is a file of which no name was noted, note(5, 2) is true, and its state is State::FileOnce and its parent 2.
    pub fn note(&mut self, k: usize, d: usize) -> bool
        requires { (k < 256) × (d < 256) }
        ensures { (result ≡ may_name (state_in self.old k))
            × (result ≡ true → self.new ≡ noted self.old k d) }
    {
        let Some(state) = self.state(k).after_name() else {
            return false;
        };
        self.put(k, state, d);
        true
    }

    // Answers whether the way up from folder k meets a folder that is reached: k itself, or one of the `steps` next above it.
    // Example: where inode 5 has parent 2 and inode 2 is reached, meets(5, 1) is true and meets(5, 0) false.
    fn meets(&self, k: usize, steps: usize) -> bool
        requires { k < 256 }
        ensures { result ≡ meets_in self.now steps k }
    {
        let mut f = k;
        for _ in 0..steps {
            if self.state(f).is_reached() {
                return true;
            }
            f = self.parent(f);
        }
        self.state(f).is_reached()
    }

    // Makes the folders on the way up from folder k reached ones, as far as the first that is one already or has no name, and at most
    // `steps` of them. Answers nothing. A folder without a name keeps its state, since its own turn must find it.
    // Example: where inode 5 has parent 2 and inode 2 is reached, mark_way(5, 256) makes 5 a reached one.
    fn mark_way(&mut self, k: usize, steps: usize)
        requires { k < 256 }
        ensures { self.new ≡ way_marked self.old steps k }
    {
        let mut f = k;
        for _ in 0..steps {
            match self.state(f) {
                State::FolderNamed => {}
                _ => return,
            }
            let parent = self.parent(f);
            self.put(f, State::FolderReached, parent);
            f = parent;
        }
    }

    // Answers whether folder k is reached from inode 0; then it marks the way up, so that all ways together take no more steps than three
    // for each folder.
    // Example: where inode 5 has parent 2 and inode 2 has parent 5, reach(5, 8) is false.
    fn reach(&mut self, k: usize, inodes: usize) -> bool
        requires { k < 256 }
        ensures { (result ≡ meets_in self.old inodes k) × (result ≡ true → self.new ≡ way_marked self.old inodes k) }
    {
        if !self.meets(k, inodes) {
            return false;
        }
        self.mark_way(k, inodes);
        true
    }

    // Judges inode k after all names were noted. Answers whether it has a name, if it is valid, and is reached from inode 0, if it is a
    // folder.
    // Example: where the state of inode 3 is State::File, settle(3, 8) is false.
    fn settle(&mut self, k: usize, inodes: usize) -> bool
        requires { k < 256 }
        ensures { (result ≡ passes self.old inodes k) × (result ≡ true → self.new ≡ passed self.old inodes k) }
    {
        match self.state(k) {
            State::File | State::Folder => false,
            State::FolderNamed => self.reach(k, inodes),
            State::Free | State::FileOnce | State::FileOften | State::FolderReached => true,
        }
    }

    // Judges every inode after all names were noted. Answers whether each valid file has a name, and each valid folder but inode 0 one name
    // and is reached from inode 0.
    // Example: of a volume just formatted it is true; where inodes 2 and 5 are folders and each is the parent of the other, it is false.
    pub fn settle_all(&mut self, inodes: usize) -> bool
        requires { Unsettled inodes self.old × (0 < inodes) × (inodes ≤ 256) }
        ensures { SettlesAll inodes self.old result self.new }
    {
        for k in (0..inodes).rev() {
            if !self.settle(k, inodes) {
                return false;
            }
        }
        true
    }

    // Answers whether folder f is folder k or lies above it.
    // Example: where inode 5 has parent 2, is_beneath(2, 5, 8) and is_beneath(5, 5, 8) are true, and is_beneath(5, 2, 8) is false.
    pub fn is_beneath(&self, f: usize, k: usize, inodes: usize) -> bool
        requires { k < 256 }
        ensures { result ≡ above_in self.now inodes f k }
    {
        let mut g = k;
        for _ in 0..inodes {
            if g == f {
                return true;
            }
            g = self.parent(g);
        }
        g == f
    }

    // Answers inode k, if exactly one name leads to it; else 0. No name leads to inode 0.
    // Example: where two names lead to inode 3, released(3) is 0.
    pub fn released(&self, k: usize) -> usize
        requires { k < 256 }
        ensures { result ≡ cond (eqb (state_in self.now k) 3) 0 k }
    {
        match self.state(k) {
            State::FileOften => 0,
            _ => k,
        }
    }
}

// A caller may hold the table as an array of 256 numbers of its own, 256 times the state of an inode and its parent: for it the three
// functions below stand beside the methods of `Tree`. Such an array may hold any number. One of 1,792 or more has the number of no state,
// and is to all three what an inode that is not valid is.

impl From<&[u16; 256]> for Tree {
    ghost from_gives = { λ numbers tree. tree ≡ map known numbers.now };

    // Answers the table that an array of numbers is; where the state of an element is none, State::Free stands in it, with its parent.
    // Example: where element 3 is 1282, state(3) of Tree::from(numbers) is State::FolderNamed, and parent(3) is 2.
    fn from(numbers: &[u16; 256]) -> Tree {
        let mut tree = Tree::new();
        for (k, x) in numbers.iter().enumerate() {
            tree.put(k, State::from(*x / 256), usize::from(*x % 256));
        }
        tree
    }
}

// Answers what becomes of an element once its folder is reached: a folder with one name is a reached one then; any other number stays.
// Example: reached(1282) is 1538, and reached(770) is 770.
fn reached(number: u16) -> u16
    ensures { result ≡ reached number }
{
    match State::from(number / 256) {
        State::FolderNamed => number + 256,
        _ => number,
    }
}

// Makes the folders with one name reached ones, in elements of a table of numbers. Answers nothing.
// Example: where an element is 1282, reach_named makes it 1538.
fn reach_named(numbers: &mut [u16])
    ensures { numbers.new ≡ map reached numbers.old }
{
    for x in numbers.iter_mut() {
        *x = reached(*x);
    }
}

// Judges every inode after all names were noted, in a table of numbers. Answers what `Tree::settle_all` answers.
// Example: of the table of a volume just formatted it is true; where elements 2 and 5 are 1285 and 1282, so that inodes 2 and 5 are folders
// and each is the parent of the other, it is false.
pub fn settle_all(tree: &mut [u16; 256], inodes: usize) -> bool
    requires { Unsettled inodes tree.old × (0 < inodes) × (inodes ≤ 256) }
    ensures { SettlesAll inodes tree.old result tree.new }
{
    let mut table = Tree::from(&*tree);
    if !table.settle_all(inodes) {
        return false;
    }
    reach_named(&mut tree[..inodes]);
    true
}

// Answers whether folder f is folder k or lies above it, in a table of numbers.
// Example: where element 5 is 1538, so that inode 5 has parent 2, is_beneath(tree, 2, 5, 8) and is_beneath(tree, 5, 5, 8) are true, and
// is_beneath(tree, 5, 2, 8) is false.
pub fn is_beneath(tree: &[u16; 256], f: usize, k: usize, inodes: usize) -> bool
    requires { k < 256 }
    ensures { result ≡ above_in tree.now inodes f k }
{
    Tree::from(tree).is_beneath(f, k, inodes)
}

// Answers inode k, if exactly one name leads to it, in a table of numbers; else 0. No name leads to inode 0.
// Example: where element 3 is 770, so that two names lead to inode 3, released(tree, 3) is 0.
pub fn released(tree: &[u16; 256], k: usize) -> usize
    requires { k < 256 }
    ensures { result ≡ cond (eqb (state_in tree.now k) 3) 0 k }
{
    match State::from(tree[k] / 256) {
        State::FileOften => 0,
        _ => k,
    }
}
