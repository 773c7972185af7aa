// Free pages, found in the marks that the judge of a volume left: a byte for each page, 0 where the page is not in use.
// Every search goes through the marks once.
#![tactic(auto)]

ghost use Rattle.std.specs.Prelude.{◌≡◌, ◌-◌, ◌≤◌, ◌<◌, length, IfSome};
ghost use Rattle.model.specs.Lists.{or_else, lowest};
ghost use Rattle.model.specs.Calls.{lowest_run};
ghost use Rattle.marks.specs.Marks.{marked, unmarked};
ghost use Rattle.space.specs.Space.{Found, ArePages, PagesTaken};
ghost use Rattle.layout.specs.Options.{to_model};

use layout::Sizes;
use marks::Marks;

// Answers the lowest page from page from on that is not marked; None where there is none.
// Example: of 16 pages, 8 inodes and marks that are all 0 but that of page 2, next_free(marks, sizes, 0) is Some(3).
pub fn next_free(marks: &Marks, sizes: Sizes, from: usize) -> Option<usize>
    requires { sizes.pages ≤ 4096 }
    ensures { (to_model result ≡ lowest (unmarked marks.now sizes.pages sizes.inodes) (sizes.pages - from) from)
        × IfSome result (λ p. p < sizes.pages) }
{
    for p in from..sizes.pages {
        if inodes::is_unmarked(marks, p, sizes) {
            return Some(p);
        }
    }
    None
}

// Answers the page from which n pages for data are sought: the first page of the lowest run of n pages that are not marked, and page 0
// where there is none, or n is 0.
// Example: of 16 pages, 8 inodes and marks that are all 0 but that of page 4, search_start(marks, sizes, 2) is 2,
// search_start(marks, sizes, 3) is 5, and search_start(marks, sizes, 12) is 0.
fn search_start(marks: &Marks, sizes: Sizes, n: usize) -> usize
    requires { sizes.pages ≤ 4096 }
    ensures { result ≡ or_else (lowest_run (unmarked marks.now sizes.pages sizes.inodes) sizes.pages n) 0 }
{
    if n == 0 {
        return 0;
    }
    let mut len: usize = 0;
    for p in 0..sizes.pages {
        if inodes::is_unmarked(marks, p, sizes) {
            len += 1;
            if len == n {
                return p + 1 - len;
            }
        } else {
            len = 0;
        }
    }
    0
}

// Finds as many pages that are not marked as `pages` has elements, the lowest from page from on, and puts them there. Answers whether there
// are so many.
// Example: where pages 5, 6 and 8 alone are not marked, find_pages(marks, sizes, 0, pages) of three elements is true and makes them 5, 6 and
// 8, and find_pages(marks, sizes, 6, pages) is false.
fn find_pages(marks: &Marks, sizes: Sizes, from: usize, pages: &mut [u64]) -> bool
    requires { sizes.pages ≤ 4096 }
    ensures { Found (unmarked marks.now sizes.pages sizes.inodes) sizes.pages from pages.old result pages.new }
{
    let mut next = from;
    for page in pages.iter_mut() {
        let Some(p) = next_free(marks, sizes, next) else {
            return false;
        };
        *page = p as u64;
        next = p + 1;
    }
    true
}

// Marks pages. Answers nothing.
// Example: where the elements of pages are 5 and 8, mark_pages(marks, pages) makes bytes 5 and 8 a 1.
fn mark_pages(marks: &mut Marks, pages: &[u64])
    requires { ArePages pages.now }
    ensures { marks.new ≡ marked marks.old pages.now }
{
    for p in pages {
        marks.take(*p as usize);
    }
}

// Takes n pages for data, the lowest run of n pages that are not marked or, where there is none, the lowest n pages that are not: marks
// them and puts them into `pages`, ascending. Answers whether there are so many.
// Example: where pages 5, 6, 8 and 9 alone are not marked, take_pages(marks, sizes, 2, pages) takes 5 and 6, and
// take_pages(marks, sizes, 3, pages) 5, 6 and 8; take_pages(marks, sizes, 5, pages) is false.
pub fn take_pages(marks: &mut Marks, sizes: Sizes, n: usize, pages: &mut [u64]) -> bool
    requires { (sizes.pages ≤ 4096) × (length marks.old ≡ 4096) × (n ≤ length pages.old) }
    ensures { PagesTaken marks.old sizes.pages sizes.inodes n pages.old result pages.new
        marks.new }
{
    let from = search_start(marks, sizes, n);
    if !find_pages(marks, sizes, from, &mut pages[..n]) {
        return false;
    }
    mark_pages(marks, &pages[..n]);
    true
}
