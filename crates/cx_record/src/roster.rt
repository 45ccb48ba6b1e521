ghost use Rattle.std.specs.Prelude.{◌≡◌, ◌++◌, ◌∷◌, [], ◌==◌, ◌+◌, ℕ, ℤ, pos, Option, Some, None, map, take, slice_get, is_some, nat_lt, IfOk, OnOk};
ghost use Rattle.std.specs.Option.{unwrap_or, option_and_then};
ghost use Rattle.cx_text.specs.Views.{seen};
ghost use Rattle.cx_text.specs.Items.{item_fields};
ghost use Rattle.cx_script.specs.Earlier.{word_in};
ghost use Rattle.cx_history.specs.IsRecord.{can_start, can_launch};
ghost use Rattle.cx_record.specs.Roster.{roster_of, thread_called, object_called, kind_called, numbers_called, is_known, takes_kind, fits_sort, started, launched, numbers};
ghost use Rattle.cx_record.specs.RosterSeen.{roster_seen};

use crate::values::word_at;
use cx_index::NameIndex;
use cx_machine::Kind;
use cx_names::{CallbackNo, NoMemory, ThreadNo};
use cx_scenario::Scenario;
use cx_scene::Thread;
use cx_text::{Sort, Value};
use std::alloc::Global;

/// A scenario's version, its names, and what the threads and objects of these names are, all by their numbers.
#[derive(Drop)]
pub(crate) struct Roster<'a> {
    pub version: u32,
    pub threads: NameIndex,
    pub objects: NameIndex,
    pub callbacks: NameIndex,
    pub sorts: &'a [Thread],
    pub kinds: Vec<Kind>,
}

/// Puts names behind those that are there.
fn put_names(index: &mut NameIndex, names: &[Vec<u8>]) -> Result<(), NoMemory>
    ensures { OnOk result (index.new ≡ index.old ++ map (λ n. n.items) names.now) }
{
    for name in names {
        index.push(name)?;
    }
    Ok(())
}

/// Whether a kind of objects has the words of a row for this sort.
pub(crate) fn takes_kind(sort: Sort, kind: Kind) -> bool
    ensures { result ≡ takes_kind sort kind }
{
    match (sort, kind) {
        (Sort::Lockables, Kind::Mutex { .. } | Kind::Shared) => true,
        (Sort::Mutexes, Kind::Mutex { .. }) => true,
        (Sort::SharedMutexes, Kind::Shared) => true,
        (Sort::Semaphores, Kind::Semaphore { .. }) => true,
        (Sort::Latches, Kind::Latch { .. }) => true,
        (Sort::Barriers, Kind::Barrier { .. }) => true,
        (Sort::Onces, Kind::Once) => true,
        (Sort::Conditions, Kind::Condition) => true,
        (Sort::StopStates, Kind::Stop { .. }) => true,
        (Sort::Settling, Kind::Future) => true,
        _ => false,
    }
}

impl<'a> Roster<'a> {
    /// The names of a scenario.
    ///
    /// Errors: no memory for them.
    pub fn of(alloc: Global, scenario: &'a Scenario) -> Result<Roster<'a>, NoMemory>
        ensures { IfOk result (λ r. roster_seen r ≡ roster_of scenario.now) }
    {
        let plan = scenario.plan();
        let mut threads = NameIndex::new(alloc);
        put_names(&mut threads, scenario.thread_names())?;
        let mut objects = NameIndex::new(alloc);
        put_names(&mut objects, scenario.object_names())?;
        let callbacks = callbacks_of(alloc, scenario)?;
        let mut kinds = Vec::new(alloc);
        for object in plan.objects.iter() {
            kinds.push(object.kind())?;
        }
        Ok(Roster {
            version: plan.version,
            threads,
            objects,
            callbacks,
            sorts: &plan.threads,
            kinds,
        })
    }

    /// The number of a thread, jthread or async, or of `main`, by its name.
    pub fn thread(&self, name: &[u8]) -> Option<u32>
        ensures { result ≡ thread_called (roster_seen self.now) name.now }
    {
        self.threads.find(name)
    }

    /// The number of an object, by its name.
    pub fn object(&self, name: &[u8]) -> Option<u32>
        ensures { result ≡ object_called (roster_seen self.now) name.now }
    {
        self.objects.find(name)
    }

    /// Whether a name is main's, or declared.
    pub fn is_known(&self, name: &[u8]) -> bool
        ensures { result ≡ is_known (roster_seen self.now) name.now }
    {
        self.threads.find(name).is_some()
            || self.objects.find(name).is_some()
            || self.callbacks.find(name).is_some()
    }

    /// The kind of an object.
    pub fn kind(&self, object: Option<u32>) -> Option<Kind>
        ensures { result ≡ option_and_then (slice_get (roster_seen self.now).kinds) object }
    {
        match object {
            None => None,
            Some(o) => self.kinds.get(o as usize).copied(),
        }
    }

    /// How many numbers an object guards.
    pub fn numbers(&self, object: Option<u32>) -> i128
        ensures { (name : _) → object ≡ object_called (roster_seen self.now) name → result ≡ numbers_called (roster_seen self.now) name }
    {
        match self.kind(object) {
            Some(Kind::Mutex { numbers, .. }) => i128::from(numbers),
            _ => 0,
        }
    }

    /// Whether there is a thread or jthread of this number, which isn't main.
    fn is_started(&self, t: Option<u32>) -> bool
        ensures { result ≡ started self.now.sorts.now t }
    {
        match t {
            None => false,
            Some(t) => {
                0 < t
                    && matches!(
                        self.sorts.get(t as usize),
                        Some(Thread::Plain | Thread::Stoppable(_))
                    )
            }
        }
    }

    /// Whether there is an async of this number.
    fn is_launched(&self, t: Option<u32>) -> bool
        ensures { result ≡ launched self.now.sorts.now t }
    {
        match t {
            None => false,
            Some(t) => matches!(self.sorts.get(t as usize), Some(Thread::Launched(_))),
        }
    }

    /// Whether a name may stand at a place of this sort, where `object` is the number of the object of this name.
    pub fn fits_by(&self, name: &[u8], object: Option<u32>, sort: Sort) -> bool
        requires { object ≡ object_called (roster_seen self.now) name.now }
        ensures { result ≡ fits_sort (roster_seen self.now) name.now sort }
    {
        match sort {
            Sort::AnyThread => self.thread(name).is_some(),
            Sort::OfThread => self.is_started(self.thread(name)),
            Sort::OfAsync => self.is_launched(self.thread(name)),
            _ => object.is_some(),
        }
    }

    /// Whether a name may stand at a place of this sort.
    pub fn fits(&self, name: &[u8], sort: Sort) -> bool
        ensures { result ≡ fits_sort (roster_seen self.now) name.now sort }
    {
        self.fits_by(name, self.object(name), sort)
    }

    /// The thread that is named at place `i`.
    pub fn thread_at(&self, values: &[Value<'_>], i: usize) -> ThreadNo
        ensures { result.0 ≡ unwrap_or (thread_called (roster_seen self.now) (word_in (slice_get (map seen values.now) i))) 0 }
    {
        ThreadNo(self.thread(word_at(values, i)).unwrap_or(0))
    }
}

/// The names of the callbacks of a scenario.
fn callbacks_of(alloc: Global, scenario: &Scenario) -> Result<NameIndex, NoMemory>
    ensures { IfOk result (λ names. names ≡ (roster_of scenario.now).names.callbacks) }
{
    let mut names = NameIndex::new(alloc);
    let count = scenario.plan().callbacks.len();
    let mut k = 0u32;
    for i in 0..count {
        names.push(scenario.callback_name(CallbackNo(k)))?;
        k = next_number(k)?;
    }
    Ok(names)
}

/// The number of the next callback.
fn next_number(k: u32) -> Result<u32, NoMemory>
    ensures { IfOk result (λ n. n ≡ k + 1) }
{
    k.checked_add(1).ok_or(NoMemory)
}
