// Marks of pages, a byte for each page: 0 where a page is not marked. A judge marks every page that serves; a page that it finds marked
// serves twice.
#![tactic(auto)]

ghost use Rattle.std.specs.Prelude.{◌≡◌, ◌<◌, ℕ, List, true, not, eqb, set, get_or, length, replicate};
ghost use Rattle.marks.specs.Marks.{Marked, mapped, have_marks};

use std::marker::Model;

// The marks of a volume's pages. In a clause they are the list of their bytes.
#[derive(Drop)]
pub struct Marks {
    bytes: [u8; 4096],
}

impl Model for Marks {
    ghost Value = { List ℕ };

    ghost view = { λ m. m.bytes };

    ghost invariant = { λ m. length m.bytes ≡ 4096 };
}

impl Marks {
    // Answers marks of which none is set.
    // Example: Marks::new().is_marked(5) is false.
    pub fn new() -> Marks
        ensures { result ≡ replicate 4096 0 }
    {
        Marks { bytes: [0; 4096] }
    }

    // Answers whether page p is marked.
    // Example: after take(5) is_marked(5) is true.
    pub fn is_marked(&self, p: usize) -> bool
        requires { p < 4096 }
        ensures { result ≡ not (eqb (get_or self.now p 0) 0) }
    {
        self.bytes[p] != 0
    }

    // Marks page p, and answers whether it was not marked before.
    // Example: of marks of which none is set take(5) is true, and after it take(5) is false.
    pub fn take(&mut self, p: usize) -> bool
        requires { p < 4096 }
        ensures { (result ≡ eqb (get_or self.old p 0) 0) × (self.new ≡ set self.old p 1) }
    {
        let x = self.bytes[p];
        self.bytes[p] = 1;
        x == 0
    }

    // Marks the data pages of a table, which has the data page of each file page and 0 where it is unmapped. Answers whether none of them
    // was marked before. All of them are known to be pages that have a mark.
    // Example: of a table of three elements, 9, 0 and 9, take_table(table) is false.
    pub fn take_table(&mut self, table: &[u64]) -> bool
        requires { have_marks (mapped table.now 0 (length table.now)) ≡ true }
        ensures { Marked self.old (mapped table.now 0 (length table.now)) result self.new }
    {
        for d in table {
            if *d != 0 && !self.take(*d as usize) {
                return false;
            }
        }
        true
    }
}

impl From<[u8; 4096]> for Marks {
    ghost from_gives = { λ bytes marks. marks ≡ bytes };

    // Answers the marks that 4,096 bytes are, for a caller that holds them so. Any byte but 0 marks its page.
    // Example: where byte 5 is 2 and byte 6 is 0, is_marked(5) of Marks::from(bytes) is true, and is_marked(6) false.
    fn from(bytes: [u8; 4096]) -> Marks {
        Marks { bytes }
    }
}

impl From<Marks> for [u8; 4096] {
    ghost from_gives = { λ marks bytes. bytes ≡ marks };

    // Answers the bytes of marks: those that they were made of, and 1 at each page that was taken since.
    // Example: <[u8; 4096]>::from(Marks::from(bytes)) is bytes.
    fn from(marks: Marks) -> [u8; 4096] {
        marks.bytes
    }
}
