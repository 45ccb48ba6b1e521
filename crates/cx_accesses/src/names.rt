ghost use Rattle.std.specs.Prelude.{◌≡◌, ◌++◌, ◌+◌, map, IfOk, OnOk};
ghost use Rattle.cx_script.specs.Script.{names_in};
ghost use Rattle.cx_accesses.specs.AccessLines.{thread_called, is_known};
ghost use Rattle.cx_accesses.specs.AccessesSeen.{names_seen};

use cx_index::NameIndex;
use cx_names::{CallbackNo, NoMemory};
use cx_scenario::Scenario;
use std::alloc::Global;

/// The names of a scenario, by their numbers.
#[derive(Drop)]
pub(crate) struct Names {
    pub threads: NameIndex,
    pub objects: NameIndex,
    pub callbacks: NameIndex,
}

/// Puts names behind those that are there.
fn put_names(index: &mut NameIndex, names: &[Vec<u8>]) -> Result<(), NoMemory>
    ensures { OnOk result (index.new ≡ index.old ++ map (λ n. n.items) names.now) }
{
    for name in names {
        index.push(name)?;
    }
    Ok(())
}

/// The number of the next callback.
fn next_number(k: u32) -> Result<u32, NoMemory>
    ensures { IfOk result (λ n. n ≡ k + 1) }
{
    k.checked_add(1).ok_or(NoMemory)
}

/// The names of the callbacks of a scenario.
fn callbacks_of(alloc: Global, scenario: &Scenario) -> Result<NameIndex, NoMemory>
    ensures { IfOk result (λ names. names ≡ (names_in scenario.now).callbacks) }
{
    let mut names = NameIndex::new(alloc);
    let count = scenario.plan().callbacks.len();
    let mut k = 0u32;
    for i in 0..count {
        names.push(scenario.callback_name(CallbackNo(k)))?;
        k = next_number(k)?;
    }
    Ok(names)
}

impl Names {
    /// The names of a scenario.
    pub fn of(alloc: Global, scenario: &Scenario) -> Result<Names, NoMemory>
        ensures { IfOk result (λ n. names_seen n ≡ names_in scenario.now) }
    {
        let mut threads = NameIndex::new(alloc);
        put_names(&mut threads, scenario.thread_names())?;
        let mut objects = NameIndex::new(alloc);
        put_names(&mut objects, scenario.object_names())?;
        let callbacks = callbacks_of(alloc, scenario)?;
        Ok(Names {
            threads,
            objects,
            callbacks,
        })
    }

    /// The number of a thread, jthread or async, or of `main`, by its name.
    pub fn thread(&self, name: &[u8]) -> Option<u32>
        ensures { result ≡ thread_called (names_seen self.now) name.now }
    {
        self.threads.find(name)
    }

    /// Whether a name is main's, or declared.
    pub fn is_known(&self, name: &[u8]) -> bool
        ensures { result ≡ is_known (names_seen self.now) name.now }
    {
        self.threads.find(name).is_some()
            || self.objects.find(name).is_some()
            || self.callbacks.find(name).is_some()
    }
}
