ghost use Rattle.std.specs.Prelude.{◌≡◌, OnOk, IfSome};
ghost use Rattle.cx_text.specs.Words.{is_one_of};
ghost use Rattle.cx_script.specs.Script.{place_in};
ghost use Rattle.cx_scenario.specs.Views.{filled, names_seen};
ghost use Rattle.cx_scenario.specs.Steps.{with_name, names_with};

use crate::said::Said;
use cx_index::NameIndex;
use cx_names::NoMemory;

/// The names of threads, objects and callbacks, each by its number.
#[derive(Drop)]
pub struct Names {
    pub threads: NameIndex,
    pub objects: NameIndex,
    pub callbacks: NameIndex,
}

/// Puts a name behind the others, where it belongs to them.
pub fn put_name(names: &mut NameIndex, belongs: bool, name: &[u8]) -> Result<(), NoMemory>
    ensures { OnOk result (names.new ≡ with_name names.old belongs name.now) }
{
    if belongs {
        names.push(name)?;
    }
    Ok(())
}

impl Names {
    /// Takes the name that a line declares.
    pub fn take(&mut self, line: &Said<'_>) -> Result<(), NoMemory>
        ensures { OnOk result (names_seen self.new ≡ names_with (names_seen self.old) (filled line.now)) }
    {
        put_name(&mut self.threads, line.makes_thread(), line.subject())?;
        put_name(&mut self.objects, line.makes_object(), line.subject())?;
        put_name(&mut self.callbacks, line.makes_callback(), line.subject())
    }
}

/// Whether a name is one of these.
pub fn is_among(names: &NameIndex, name: &[u8]) -> bool
    ensures { result ≡ is_one_of names.now name.now }
{
    names.find(name).is_some()
}

/// The place of a name among names, and their count where it is not among them.
pub fn place_in(names: &NameIndex, name: &[u8]) -> usize
    ensures { result ≡ place_in names.now name.now }
{
    match names.find(name) {
        None => names.len(),
        Some(place) => place as usize,
    }
}

/// The place of a name as a number of 32 bits.
pub fn number_in(names: &NameIndex, name: &[u8]) -> Option<u32>
    ensures { IfSome result (λ n. n ≡ place_in names.now name.now) }
{
    let place = place_in(names, name);
    if place < 4294967296 {
        Some(place as u32)
    } else {
        None
    }
}
