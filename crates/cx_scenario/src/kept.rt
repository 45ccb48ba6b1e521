use crate::said::Said;
use cx_index::NameIndex;
use cx_names::NoMemory;
use std::alloc::Global;
use std::marker::Model;

/// The declarations read so far, each found by its name.
#[derive(Drop)]
pub struct Kept<'a> {
    lines: Vec<Said<'a>>,
    names: NameIndex,
}

impl<'a> Model for Kept<'a> {
    ghost use Rattle.std.specs.Prelude.{List, map};
    ghost use Rattle.cx_text.specs.Words.{Filled};
    ghost use Rattle.cx_scenario.specs.Seen.{filled, IsKept};

    ghost Value = { List Filled };

    ghost view = { λ s. map filled s.lines.items };

    ghost invariant = { λ s. IsKept s.names (map filled s.lines.items) };
}

impl<'a> Kept<'a> {
    ghost use Rattle.std.specs.Prelude.{◌≡◌, ◌++◌, ◌∷◌, [], true, map, is_some, OnOk, OnErr};
    ghost use Rattle.std.specs.Option.{option_map};
    ghost use Rattle.cx_script.specs.Earlier.{declaration_of};
    ghost use Rattle.cx_scenario.specs.Seen.{filled, said_now, declares_any};

    /// No declarations.
    pub fn new(alloc: Global) -> Kept<'a>
        ensures { result ≡ [] }
    {
        Kept {
            lines: Vec::new(alloc),
            names: NameIndex::new(alloc),
        }
    }

    /// The declarations in their order.
    pub fn lines(&self) -> &[Said<'a>]
        ensures { map filled result.now ≡ self.now }
    {
        &self.lines
    }

    /// The first declaration of a name.
    pub fn find(&self, name: &[u8]) -> Option<&Said<'a>>
        ensures { option_map said_now result ≡ declaration_of self.now name.now }
    {
        match self.names.find(name) {
            None => None,
            Some(place) => self.lines.get(place as usize),
        }
    }

    /// Whether a name is declared.
    pub fn has(&self, name: &[u8]) -> bool
        ensures { result ≡ is_some (declaration_of self.now name.now) }
    {
        match self.find(name) {
            None => false,
            Some(_) => true,
        }
    }

    /// Puts a declaration behind the others.
    pub fn push(&mut self, line: Said<'a>) -> Result<(), NoMemory>
        requires { declares_any (filled line) ≡ true }
        ensures put { OnOk result (self.new ≡ self.old ++ filled line.entry ∷ []) }
        ensures err { OnErr result (self.new ≡ self.old) }
    {
        let name = line.subject();
        self.lines.push(line)?;
        match self.names.push(name) {
            Ok(()) => Ok(()),
            Err(e) => {
                self.lines.pop();
                Err(e)
            }
        }
    }
}
