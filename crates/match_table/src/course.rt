//! Where a page may be.

use crate::entry::PageName;

// How many keys a course knows, of pages of first halves and of second ones.
const KEYS: usize = 128;

const SECOND_KEYS: usize = 16;

/// Where pages were found last: keys by a part of their names. Whatever it says serves; where it is right
/// a page is found at once.
#[derive(Clone, Copy)]
pub struct Course {
    keys: [u32; KEYS + SECOND_KEYS],
}

// Whether a page has second halves.
#[inline(always)]
fn is_second(name: PageName) -> bool {
    name.part % 2 == 1
}

// The place of a name's key.
#[inline(always)]
fn place_for(name: PageName) -> usize {
    let number = name.part / 2;
    if is_second(name) {
        KEYS + (number / 16) as usize % SECOND_KEYS
    } else {
        number.wrapping_add(number / 16) as usize % KEYS
    }
}

impl Course {
    /// Where nothing is known of the pages.
    pub fn none() -> Course {
        Course {
            keys: [0; KEYS + SECOND_KEYS],
        }
    }

    // The key that the page with a name may have.
    #[inline(always)]
    pub(crate) fn key(&self, name: PageName) -> usize {
        match self.keys.get(place_for(name)) {
            Some(key) => *key as usize,
            None => 0,
        }
    }

    // The page with a name has this key.
    #[inline(always)]
    pub(crate) fn found(&mut self, name: PageName, key: usize) {
        if let Some(at) = self.keys.get_mut(place_for(name)) {
            *at = u32::try_from(key).unwrap_or(0);
        }
    }
}
