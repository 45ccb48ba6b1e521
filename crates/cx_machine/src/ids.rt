ghost use Rattle.std.specs.Prelude.{◌≡◌, IfOk, IfErr};
ghost use Rattle.cx_machine.specs.Words.{IsRising, IsRising-prop, IsFoundAt, IsMissingAt};

use cx_names::NoMemory;
use std::alloc::Global;

/// Where the ID stands in the rising list, or else where it would.
fn place_of(rising: &[u32], id: u32) -> Result<usize, usize>
    requires { IsRising rising.now }
    ensures found { IfOk result (IsFoundAt rising.now id) }
    ensures missing { IfErr result (IsMissingAt rising.now id) }
{
    rising.binary_search(&id)
}

/// A set of IDs, in rising order.
#[derive(Drop)]
pub struct Ids {
    rising: Vec<u32>,
    ghost up: { IsRising rising.items } by { IsRising-prop rising.items },
}

impl Ids {
    ghost use Rattle.std.specs.Prelude.{◌≡◌, ◌+◌, ◌<◌, ◌≤◌, [], IfOk, vec_len, vec_capacity};
    ghost use Rattle.cx_machine.specs.Words.{has, without, inserted};

    /// No ID.
    pub fn new(alloc: Global) -> Ids
        ensures { result.rising.items ≡ [] }
    {
        Ids {
            rising: Vec::new(alloc),
        }
    }

    /// How many IDs are in the set.
    pub fn len(&self) -> usize
        ensures { result ≡ vec_len self.now.rising }
    {
        self.rising.len()
    }

    /// Whether the ID is in the set, in logarithmic steps.
    pub fn has(&self, id: u32) -> bool
        ensures { result ≡ has self.now.rising.items id }
    {
        place_of(&self.rising, id).is_ok()
    }

    /// Makes room for `n` more IDs.
    pub fn reserve(&mut self, n: usize) -> Result<(), NoMemory>
        ensures items { self.new.rising.items ≡ self.old.rising.items }
        ensures len { vec_len self.new.rising ≡ vec_len self.old.rising }
        ensures room { IfOk result (λ _. vec_len self.new.rising + n ≤ vec_capacity self.new.rising) }
        ensures more { vec_capacity self.old.rising ≤ vec_capacity self.new.rising }
    {
        self.rising.reserve(n)?;
        Ok(())
    }

    /// Puts the ID in, for which there is room.
    pub fn insert(&mut self, id: u32)
        requires { vec_len self.old.rising < vec_capacity self.old.rising }
        ensures items { self.new.rising.items ≡ inserted self.old.rising.items id }
        ensures room { vec_capacity self.old.rising ≤ vec_capacity self.new.rising }
    {
        match place_of(&self.rising, id) {
            Ok(_) => {}
            Err(place) => {
                let _put = self.rising.insert(place, id);
            }
        }
    }

    /// Takes the ID out. Its room stays.
    pub fn remove(&mut self, id: u32)
        ensures items { self.new.rising.items ≡ without self.old.rising.items id }
        ensures room { vec_capacity self.new.rising ≡ vec_capacity self.old.rising }
    {
        match place_of(&self.rising, id) {
            Ok(place) => {
                self.rising.remove(place);
            }
            Err(_) => {}
        }
    }
}
