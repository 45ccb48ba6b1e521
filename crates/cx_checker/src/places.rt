ghost use Rattle.std.specs.Prelude.{◌≡◌, ℕ, ◌==◌, max, slice_index, IfOk, if◌then◌else◌};
ghost use Rattle.cx_history.specs.Histories.{place_after};
ghost use Rattle.cx_history.specs.Legal.{is_at_least};
ghost use Rattle.cx_checker.specs.Knowledge.{place_in};

use crate::by_object::number;
use cx_items::Item;
use cx_names::{NoMemory, ObjectNo};
use std::alloc::Global;

/// How many changes of each object are known, by its number; none of those past the end.
#[derive(Drop)]
pub struct Places {
    pub seen: Vec<u64>,
}

impl Places {
    /// Nothing is known.
    pub fn new(alloc: Global) -> Places
        ensures { (o : ℕ) → place_in result o ≡ 0 }
    {
        Places {
            seen: Vec::new(alloc),
        }
    }

    /// How many changes of the object are known.
    pub fn get(&self, o: u32) -> u64
        ensures { result ≡ place_in self.now o }
    {
        let i = o as usize;
        if i < self.seen.len() { self.seen[i] } else { 0 }
    }

    /// Sets how many changes of the object are known.
    pub fn put(&mut self, o: u32, n: u64) -> Result<(), NoMemory>
        ensures { IfOk result (λ _. (q : ℕ) → place_in self.new q ≡ (if o == q then n else place_in self.old q)) }
    {
        let i = o as usize;
        if i < self.seen.len() {
            self.seen[i] = n;
            return Ok(());
        }
        for _room in self.seen.len()..i {
            self.seen.push(0)?;
        }
        self.seen.push(n)?;
        Ok(())
    }

    /// Goes past an item: after a change the changes up to it are known, after a look those below
    /// its stamp.
    pub fn pass(&mut self, item: &Item) -> Result<(), NoMemory>
        ensures { IfOk result (λ _. (q : ℕ) → place_in self.new q ≡ place_after q (place_in self.old q) item.now) }
    {
        match item {
            Item::Change(o, position, _) => self.put(o.0, u64::from(*position) + 1),
            Item::Look(o, look) => self.put(o.0, u64::from(look.at)),
            _ => Ok(()),
        }
    }

    /// Whether the item's position or stamp is at least what is known.
    pub fn allows(&self, item: &Item) -> bool
        ensures { result ≡ is_at_least (place_in self.now) item.now }
    {
        match item {
            Item::Change(o, position, _) => self.get(o.0) <= u64::from(*position),
            Item::Look(o, look) => self.get(o.0) <= u64::from(look.at),
            _ => true,
        }
    }

    /// Raises what is known to what is known there.
    pub fn raise(&mut self, other: &Places) -> Result<(), NoMemory>
        ensures { IfOk result (λ _. (q : ℕ) → place_in self.new q ≡ max (place_in self.old q) (place_in other.now q)) }
    {
        for o in 0..other.seen.len() {
            let n = number(o)?;
            let most = greater(self.get(n), other.get(n));
            self.put(n, most)?;
        }
        Ok(())
    }
}

/// The greater of the two.
fn greater(a: u64, b: u64) -> u64
    ensures { result ≡ max a b }
{
    if a < b { b } else { a }
}
