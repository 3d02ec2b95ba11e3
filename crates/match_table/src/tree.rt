//! Trees of pages: behind each page stand up to two, by the bits of a number that their names give.

ghost use Rattle.std.specs.Prelude.{◌≡◌, ◌<◌, ◌≤◌, length, vec_capacity};
ghost use Rattle.match_table.specs.Pages.{HookIs, IsAbsent, KeyOf, PagesOk, column, path_of, root_of};
ghost use Rattle.match_table.specs.Pages.{tree_of, trees};

use crate::course::Course;
use crate::entry::{NOWHERE, Page, PageName, next_of};
use crate::names::is_same;
use slab::Slab;

/// Where a page is put: its tree is empty, or it stands behind the page with a key, where the number says so.
#[derive(Clone, Copy)]
pub enum Hook {
    Root,
    Behind(usize, u64),
}

// How many trees there are.
pub(crate) const TREES: usize = 32768;

// The number of a page's waves.
#[inline(always)]
fn column_of(name: PageName) -> u64
    ensures { result ≡ column name.wave }
{
    4 * (name.wave / 64) + name.wave / 4 % 4
}

// The tree of a page.
#[inline(always)]
fn tree_of(name: PageName) -> usize
    ensures { result ≡ tree_of name }
{
    (column_of(name) % TREES as u64) as usize
}

// Where the tree begins in which the page with a name stands, or would.
#[inline(always)]
fn root_of(roots: &[usize], name: PageName) -> usize
    ensures { result ≡ root_of roots.now name }
{
    match roots.get(tree_of(name)) {
        Some(root) => *root,
        None => NOWHERE,
    }
}

// The number whose bits lead to the page with a name. In the pages of one of sixteen tables a half's number
// says more by its bits from the fifth on.
#[inline(always)]
fn path_of(name: PageName) -> u64
    ensures { result ≡ path_of name }
{
    let far = (column_of(name) / TREES as u64).wrapping_mul(1 << 40);
    (name.part / 2 + name.part / 32).wrapping_add(far)
}

// The key of the page with a name, looked for in its tree.
#[inline(never)]
pub(crate) fn seek_far(
    roots: &[usize],
    pages: &Slab<Page>,
    course: &mut Course,
    name: PageName,
) -> Option<usize>
    requires { PagesOk roots.now pages.now.slots }
    ensures { KeyOf pages.now.slots result name }
{
    let mut at = root_of(roots, name);
    let mut path = path_of(name);
    let mut left = pages.len();
    while let Some(page) = pages.get(at) {
        if is_same(page.name, name) {
            course.found(name, at);
            return Some(at);
        }
        if left == 0 {
            return None;
        }
        at = next_of(page, path);
        path /= 2;
        left -= 1;
    }
    None
}

// Where the page with a name would be put that none has.
pub(crate) fn hook_of(roots: &[usize], pages: &Slab<Page>, name: PageName) -> Hook
    requires stand { PagesOk roots.now pages.now.slots }
    requires absent { IsAbsent pages.now.slots name }
    ensures { HookIs roots.now pages.now.slots name result }
{
    let mut at = root_of(roots, name);
    let mut path = path_of(name);
    let mut left = pages.len();
    let mut hook = Hook::Root;
    while let Some(page) = pages.get(at) {
        hook = Hook::Behind(at, path);
        if left == 0 {
            unreachable!();
        }
        at = next_of(page, path);
        path /= 2;
        left -= 1;
    }
    hook
}

// Puts a page at the root of its tree.
pub(crate) fn plant(roots: &mut Vec<usize>, name: PageName, key: usize)
    requires { trees ≤ vec_capacity roots.old }
    ensures own { (n : PageName) → tree_of n ≡ tree_of name → root_of roots.new.items n ≡ key }
    ensures others { (n : PageName) → (tree_of n ≡ tree_of name → ⊥)
        → root_of roots.new.items n ≡ root_of roots.old.items n }
    ensures capacity { vec_capacity roots.new ≡ vec_capacity roots.old }
{
    let tree = tree_of(name);
    reach(roots, tree);
    roots[tree] = key;
}

// Lengthens the roots as far as a tree.
fn reach(roots: &mut Vec<usize>, tree: usize)
    requires room { trees ≤ vec_capacity roots.old }
    requires there { tree < trees }
    ensures reaches { tree < length roots.new.items }
    ensures same { (n : PageName) → root_of roots.new.items n ≡ root_of roots.old.items n }
    ensures capacity { vec_capacity roots.new ≡ vec_capacity roots.old }
{
    while roots.len() <= tree {
        roots.push_reserved(NOWHERE);
    }
}
