use cx_names::NoMemory;
use std::alloc::Global;
use std::collections::BTreeMap;
use std::marker::Model;

/// Names in the order in which they were put in.
#[derive(Drop)]
pub struct NameIndex {
    names: Vec<Vec<u8>>,
    places: BTreeMap<Vec<u8>, u32>,
}

impl Model for NameIndex {
    ghost use Rattle.std.specs.Prelude.{List, ℕ, map};
    ghost use Rattle.cx_index.specs.Places.{IsIndex};

    ghost Value = { List (List ℕ) };

    ghost view = { λ s. map (λ n. n.items) s.names.items };

    ghost invariant = { λ s. IsIndex s.names.items s.places };
}

impl NameIndex {
    ghost use Rattle.std.specs.Prelude.{◌≡◌, ◌++◌, ◌∷◌, [], map, length, IfOk, OnErr};
    ghost use Rattle.cx_index.specs.Places.{place_of};

    /// No names.
    pub fn new(alloc: Global) -> NameIndex
        ensures { result ≡ [] }
    {
        NameIndex {
            names: Vec::new(alloc),
            places: BTreeMap::new(alloc),
        }
    }

    /// Takes all names out.
    pub fn clear(&mut self)
        ensures { self.new ≡ [] }
    {
        self.names.clear();
        self.places.clear();
    }

    /// How many names there are.
    pub fn len(&self) -> usize
        ensures { result ≡ length self.now }
    {
        self.names.len()
    }

    /// The names in their order.
    pub fn names(&self) -> &[Vec<u8>]
        ensures { map (λ n. n.items) result.now ≡ self.now }
    {
        &self.names
    }

    /// The place of the first of the names that is equal to this one, counted from 0.
    pub fn find(&self, name: &[u8]) -> Option<u32>
        ensures { result ≡ place_of self.now name.now }
    {
        self.places.get(name).copied()
    }

    /// Puts a name behind the others.
    ///
    /// Errors: no memory for it, or there are 4,294,967,296 names; then nothing has changed.
    pub fn push(&mut self, name: &[u8]) -> Result<(), NoMemory>
        ensures put { IfOk result (λ _. self.new ≡ self.old ++ name.now ∷ []) }
        ensures err { OnErr result (self.new ≡ self.old) }
    {
        let place = self.names.len();
        if place >= 4_294_967_296 {
            return Err(NoMemory);
        }
        let alloc = *self.names.allocator();
        let key = Vec::from_slice(alloc, name)?;
        let name = Vec::from_slice(alloc, name)?;
        self.names.push(name)?;
        if self.places.contains_key(key.as_slice()) {
            return Ok(());
        }
        match self.places.insert(key, place as u32) {
            Ok(_) => Ok(()),
            Err(_) => {
                self.names.pop();
                Err(NoMemory)
            }
        }
    }
}
