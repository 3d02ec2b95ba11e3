//! Lists of instances.

ghost use Rattle.std.specs.Prelude.{◌≡◌, ◌+◌, ◌*◌, ◌^◌, ◌<◌, ◌≤◌, [], IsOk, List, MatchOption, OnOk, Option};
ghost use Rattle.std.specs.Prelude.{length};
ghost use Rattle.std.specs.Prelude.{slice_index_or};
ghost use Rattle.df_core.specs.Core.{Key};
ghost use Rattle.match_table.specs.Pages.{IsNamed, PageContent, name_for};
ghost use Rattle.match_table.specs.Spots.{AllPlaced, IsListed, IsSpot, PlacedSo, instances, key_in};

use crate::entry::Instance;
use crate::names::place_of;
use std::alloc::{AllocError, Global};
use std::marker::Model;

/// Instances in the order in which they were listed. Each is listed by its spot, a number of 32 bits; from
/// the first on whose page has a key too large for that, by wave number and instruction.
#[derive(Drop)]
pub struct Instances {
    spots: Vec<u32>,
    others: Vec<Instance>,
}

impl Model for Instances {
    ghost use Rattle.std.specs.Prelude.{◌-◌, min, vec_len, vec_capacity};
    ghost use Rattle.match_table.specs.Spots.{InstanceList};

    ghost Value = { InstanceList };

    ghost view = { λ l. record {
      spots = l.spots.items;
      others = l.others.items;
      spare = min (vec_capacity l.spots - vec_len l.spots) (vec_capacity l.others - vec_len l.others);
    } };
}

/// An instance as it is listed: by its spot, or by wave number and instruction.
#[derive(Clone, Copy)]
pub enum Listed {
    Spot(u32),
    Other(Instance),
}

// From here on a key is too large for a spot.
const KEYS: usize = 1 << 28;

// The spot of an instance whose page has this key, where that is a number of 32 bits.
#[inline(always)]
fn spot_of(key: usize, wave: u64, instr: u32) -> Option<u32>
    ensures { MatchOption result (2 ^ 28 ≤ key) (λ s. (slots : List (Option PageContent))
        → IsNamed slots key (name_for wave (2 * instr)) → IsSpot slots s wave instr) }
{
    let _ = instr;
    if key < KEYS {
        Some(key as u32 * 16 + place_of(wave) as u32)
    } else {
        None
    }
}

impl Instances {
    /// None.
    pub fn none(alloc: Global) -> Instances
        ensures spots { result.spots ≡ [] }
        ensures others { result.others ≡ [] }
    {
        Instances {
            spots: Vec::new(alloc),
            others: Vec::new(alloc),
        }
    }

    /// How many there are.
    #[inline(always)]
    pub fn len(&self) -> usize
        ensures { result ≡ length self.now.spots + length self.now.others }
    {
        self.spots[..].len() + self.others[..].len()
    }

    /// Makes room for so many more.
    pub fn reserve(&mut self, count: usize) -> Result<(), AllocError>
        ensures spots { self.new.spots ≡ self.old.spots }
        ensures others { self.new.others ≡ self.old.others }
        ensures room { OnOk result (count ≤ self.new.spare) }
        ensures kept { self.old.spare ≤ self.new.spare }
        ensures succeeds { 0 < count → count ≤ self.old.spare → IsOk result }
    {
        self.spots.reserve(count)?;
        self.others.reserve(count)?;
        Ok(())
    }

    /// Lists an instance whose page has this key.
    #[inline(always)]
    pub fn push(&mut self, key: usize, instance: Instance)
        requires { 0 < self.old.spare }
        ensures listed { (slots : List (Option PageContent))
            → IsNamed slots key (name_for instance.wave (2 * instance.instr)) → AllPlaced slots self.old
            → IsListed slots self.old self.new instance }
        ensures small { self.old.others ≡ [] → key < 2 ^ 28 → self.new.others ≡ [] }
        ensures room { self.old.spare ≤ self.new.spare + 1 }
    {
        if !self.others.is_empty() {
            self.others.push_reserved(instance);
            return;
        }
        match spot_of(key, instance.wave, instance.instr) {
            Some(spot) => self.spots.push_reserved(spot),
            None => self.others.push_reserved(instance),
        }
    }

    /// The instance at a place of the list, from 0.
    #[inline(always)]
    pub fn at(&self, place: usize) -> Listed
        requires { place < length self.now.spots + length self.now.others }
        ensures at { (slots : List (Option PageContent)) (d : Key)
            → slice_index_or (instances slots self.now) place d ≡ key_in slots result }
        ensures placed { (slots : List (Option PageContent)) → AllPlaced slots self.now
            → PlacedSo slots result }
    {
        let count = self.spots.len();
        if place < count {
            Listed::Spot(self.spots[place])
        } else {
            Listed::Other(self.others[place - count])
        }
    }
}
