//! Names of pages, and places in them.

ghost use Rattle.std.specs.Prelude.{◌≡◌, ◌*◌, ◌<◌, ◌^◌, true, false};
ghost use Rattle.match_table.specs.Pages.{name_for, place_of, second_half, second_wave};

use crate::entry::PageName;

// The number of an instance's first half.
#[inline(always)]
pub(crate) fn first_half(instr: u32) -> u64
    ensures number { result ≡ 2 * instr }
    ensures below { result < 2 ^ 38 }
{
    2 * u64::from(instr)
}

// The wave number under which an instance's second half stands.
#[inline(always)]
pub(crate) fn second_wave(wave: u64) -> u64
    ensures { result ≡ second_wave wave }
{
    256 * (wave / 256) + 16 * (wave / 64 % 4) + wave / 16 % 4
}

// The number of an instance's second half.
#[inline(always)]
pub(crate) fn second_half(wave: u64, instr: u32) -> u64
    ensures number { result ≡ second_half wave instr }
    ensures below { result < 2 ^ 38 }
{
    2 * (16 * u64::from(instr) + wave % 16 + (3 - wave / 16 % 4)) + 1
}

// The name of the page that has half an instance.
#[inline(always)]
pub(crate) fn name_of(wave: u64, half: u64) -> PageName
    requires { half < 2 ^ 38 }
    ensures { result ≡ name_for wave half }
{
    PageName {
        wave: 64 * (wave / 64) + 4 * (wave / 4 % 4),
        part: half + 2 * (wave % 4),
    }
}

// The place of a wave's half in its page.
#[inline(always)]
pub(crate) fn place_of(wave: u64) -> usize
    ensures place { result ≡ place_of wave }
    ensures below { result < 16 }
{
    (4 * (wave / 16 % 4) + wave % 4) as usize
}

// Whether a name is another.
#[inline(always)]
pub(crate) fn is_same(one: PageName, other: PageName) -> bool
    ensures same { result ≡ true → one ≡ other }
    ensures apart { result ≡ false → one ≡ other → ⊥ }
{
    one.wave == other.wave && one.part == other.part
}
