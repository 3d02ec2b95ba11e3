//! The waves that are to be passed: their first blocks, each once.

ghost use Rattle.std.specs.Prelude.{◌≡◌, ◌+◌, ◌<◌, ◌⊎◌, ◌∷◌, ◌++◌, ℕ, [], length, OnOk, true};
ghost use Rattle.ws_isa.specs.Image.{is_first, IsBlock};
ghost use Rattle.ws_isa.specs.View as view;
ghost use Rattle.annot_check.specs.Table.{HasNumber, MoreCome};
ghost use Rattle.ws_words.specs.Items.{flag_at};

use crate::read::{block, starts_wave};
use ws_isa::Image;
use ws_words::NoMemory;

/// The first blocks of waves to which a path leads, and those whose waves are to be passed.
#[derive(Drop)]
pub struct Waves {
    pub come: Vec<bool>,
    pub todo: Vec<u32>,
}

impl Waves {
    // A path leads to the first block of a wave.
    pub(crate) fn come_to(&mut self, number: u32) -> Result<(), NoMemory>
        requires { number < length self.now.come.items }
        ensures more { OnOk result (MoreCome self.old self.new) }
        ensures there { OnOk result (flag_at self.new.come.items number ≡ true) }
        ensures is_new { OnOk result ((b : ℕ) → flag_at self.new.come.items b ≡ true →
            (flag_at self.old.come.items b ≡ true) ⊎ (b ≡ number)) }
    {
        if self.come[number as usize] {
            return Ok(());
        }
        self.todo.push(number)?;
        self.come[number as usize] = true;
        Ok(())
    }

    // A path leads to a block, which may be the first of its wave.
    fn come_into(&mut self, image: &Image, number: u32) -> Result<(), NoMemory>
        requires block { IsBlock (view.image image.now) number }
        requires size { length self.now.come.items ≡ length (view.image image.now).blocks + 1 }
        ensures more { OnOk result (MoreCome self.old self.new) }
        ensures there { OnOk result (is_first (view.image image.now) number ≡ true →
            flag_at self.new.come.items number ≡ true) }
        ensures is_new { OnOk result ((b : ℕ) → flag_at self.new.come.items b ≡ true →
            (flag_at self.old.come.items b ≡ true) ⊎
            ((b ≡ number) × (is_first (view.image image.now) b ≡ true))) }
    {
        if !starts_wave(image, number) {
            return Ok(());
        }
        self.come_to(number)
    }

    // Paths lead to these blocks.
    pub(crate) fn come_into_all(&mut self, image: &Image, numbers: &[u32]) -> Result<(), NoMemory>
        requires blocks { (b : ℕ) → HasNumber numbers.now b → IsBlock (view.image image.now) b }
        requires size { length self.now.come.items ≡ length (view.image image.now).blocks + 1 }
        ensures more { OnOk result (MoreCome self.old self.new) }
        ensures there { OnOk result ((b : ℕ) → HasNumber numbers.now b →
            is_first (view.image image.now) b ≡ true → flag_at self.new.come.items b ≡ true) }
        ensures is_new { OnOk result ((b : ℕ) → flag_at self.new.come.items b ≡ true →
            (flag_at self.old.come.items b ≡ true) ⊎
            (HasNumber numbers.now b × (is_first (view.image image.now) b ≡ true))) }
    {
        for number in numbers {
            self.come_into(image, *number)?;
        }
        Ok(())
    }
}

// One more number.
pub(crate) fn add(numbers: &mut Vec<u32>, number: u32) -> Result<(), NoMemory>
    ensures { OnOk result (numbers.new.items ≡ numbers.old.items ++ number ∷ []) }
{
    numbers.push(number)?;
    Ok(())
}
