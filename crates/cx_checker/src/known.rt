ghost use Rattle.std.specs.Prelude.{◌≡◌, ◌≤◌, ℕ, true, [], max, length, Some, map, slice_get, IfOk};
ghost use Rattle.cx_history.specs.Histories.{begins, known_at_start, knows_after};
ghost use Rattle.cx_history.specs.Views.{recorded_of};
ghost use Rattle.cx_checker.specs.declared.known.Begun.{Begun as AnyBegun};
ghost use Rattle.cx_checker.specs.Knowledge.{place_in, place_of, begun_at, knowing_at, AreEnds};

use crate::places::Places;
use cx_history::Record;
use cx_items::{Control, Item};
use cx_names::{NoMemory, ThreadNo};
use std::alloc::Global;

/// A thread, and what main knew when it started it.
#[derive(Drop)]
pub struct Begun {
    pub thread: u32,
    pub known: Places,
}

/// What main has seen, what it owes to those it joined, and what it knew at each start.
#[derive(Drop)]
pub struct Known {
    pub place: Places,
    pub owed: Places,
    pub begun: Vec<Begun>,
}

/// The index of the first start of thread `t`, or the number of all starts.
fn start_of(begun: &[Begun], t: u32) -> usize
    ensures found { (o : ℕ) (b : AnyBegun) → slice_get begun.now result ≡ Some b → known_at_start (map (begun_at o) begun.now) t ≡ place_in b.known o }
    ensures none { (o : ℕ) → length begun.now ≤ result → known_at_start (map (begun_at o) begun.now) t ≡ 0 }
{
    for i in 0..begun.len() {
        let start = &begun[i];
        if start.thread == t {
            return i;
        }
    }
    begun.len()
}

/// Raises `owed` to what main knew when it first started thread `t`, if it did.
pub fn raise_to_start(owed: &mut Places, begun: &[Begun], t: u32) -> Result<(), NoMemory>
    ensures { IfOk result (λ _. (o : ℕ) → place_in owed.new o ≡ max (place_in owed.old o) (known_at_start (map (begun_at o) begun.now) t)) }
{
    let i = start_of(begun, t);
    if i < begun.len() {
        let start = &begun[i];
        owed.raise(&start.known)?;
    }
    Ok(())
}

/// Raises `owed` to what thread `t` has seen at its list's end.
fn raise_to_end(owed: &mut Places, ends: &[Places], t: u32) -> Result<(), NoMemory>
    ensures { IfOk result (λ _. (o : ℕ) → place_in owed.new o ≡ max (place_in owed.old o) (place_of (slice_get ends.now t) o)) }
{
    match ends.get(t as usize) {
        Some(end) => owed.raise(end),
        None => Ok(()),
    }
}

impl Known {
    /// Nothing is known.
    pub fn new(alloc: Global) -> Known
        ensures { (o : ℕ) → knowing_at o result ≡ record { place = 0; owed = 0; begun = [] } }
    {
        Known {
            place: Places::new(alloc),
            owed: Places::new(alloc),
            begun: Vec::new(alloc),
        }
    }

    /// Main starts thread `t`.
    fn begin(&mut self, alloc: Global, t: ThreadNo) -> Result<(), NoMemory>
        ensures { IfOk result (λ _. (o : ℕ) → knowing_at o self.new ≡ begins (knowing_at o self.old) t true) }
    {
        let mut known = Places::new(alloc);
        known.raise(&self.place)?;
        known.raise(&self.owed)?;
        self.begun.push(Begun { thread: t.0, known })?;
        Ok(())
    }

    /// Main starts thread `t`, if there was a thread to be had.
    fn begin_if(&mut self, alloc: Global, t: ThreadNo, ok: bool) -> Result<(), NoMemory>
        ensures { IfOk result (λ _. (o : ℕ) → knowing_at o self.new ≡ begins (knowing_at o self.old) t ok) }
    {
        if ok { self.begin(alloc, t) } else { Ok(()) }
    }

    /// Main joins thread `t`.
    fn join(&mut self, ends: &[Places], t: ThreadNo) -> Result<(), NoMemory>
        ensures { IfOk result (λ _. (o : ℕ) → knowing_at o self.new ≡ record (knowing_at o self.old) { owed = max (place_in self.old.owed o) (max (place_of (slice_get ends.now t.0) o) (known_at_start (map (begun_at o) self.old.begun.items) t.0)) }) }
    {
        raise_to_end(&mut self.owed, ends, t.0)?;
        raise_to_start(&mut self.owed, &self.begun, t.0)
    }

    /// Main goes past an item; `ends` says what each thread has seen at its list's end.
    pub fn pass(
        &mut self,
        alloc: Global,
        record: &Record,
        ends: &[Places],
        item: &Item,
    ) -> Result<(), NoMemory>
        requires { AreEnds (recorded_of record.now) ends.now }
        ensures { IfOk result (λ _. (o : ℕ) → knowing_at o self.new ≡ knows_after (recorded_of record.now) o (knowing_at o self.old) item.now) }
    {
        match item {
            Item::Control(Control::Start(t, ok)) => self.begin_if(alloc, *t, *ok),
            Item::Control(Control::Launch(t, ok)) => self.begin_if(alloc, *t, *ok),
            Item::Control(Control::Join(t)) => self.join(ends, *t),
            _ => self.place.pass(item),
        }
    }
}
