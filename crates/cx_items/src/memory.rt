use crate::item::{Control, Item};
use crate::kept::{Kept, one_more};
use cx_machine::Op;
use cx_names::{CallbackNo, NoMemory, ObjectNo, Reply, TURNS, ThreadNo};
use cx_scene::{Call, Object, Plan, Registration, Thread};
use std::alloc::Global;
use std::marker::Model;

/// What a thread remembers of its earlier items: what it keeps of each object, the IDs that it has
/// registered and the threads that it may join, the last ones first, and its turns.
#[derive(Drop)]
pub struct Memory {
    kept: Vec<Kept>,
    held: Vec<u32>,
    joinable: Vec<u32>,
    turns: u64,
}

impl Model for Memory {
    ghost use Rattle.cx_items.specs.Memory.{Memory as Remembered};

    ghost Value = { Remembered };

    ghost view = { λ m. record { kept = m.kept.items; held = m.held.items; joinable = m.joinable.items; turns = m.turns } };
}

ghost use Rattle.std.specs.Prelude.{◌≡◌, ◌+◌, nat_lt, not, Some, IfOk};
ghost use Rattle.cx_machine.specs.Words.{has, without};
ghost use Rattle.cx_scene.specs.Scene.{scene_of};
ghost use Rattle.cx_items.specs.Memory.{of, keep, owns, has_any, is_joinable, memory_at_start, kept_at_start, held_after, launched, controlled, remembering, settled};
ghost use Rattle.cx_items.specs.Calls.{held_id, has_one, is_of};

/// Whether the number is among these.
#[tactic(auto, using(crate::proofs::Walks::has_walk))]
fn has(numbers: &[u32], n: u64) -> bool
    ensures { result ≡ has numbers.now n }
{
    for m in numbers {
        if u64::from(*m) == n {
            return true;
        }
    }
    false
}

/// Takes the number out.
fn remove_from(numbers: &mut Vec<u32>, n: u64)
    ensures { numbers.new.items ≡ without numbers.old.items n }
{
    numbers.retain(|m| u64::from(*m) != n);
}

/// What thread `t` keeps of the object at its start.
fn kept_at_start(t: ThreadNo, object: &Object) -> Kept
    ensures { result ≡ kept_at_start t.0 object.now }
{
    match object {
        Object::Stop { holders } => Kept {
            sources: u64::from(has(holders.as_slice(), u64::from(t.0))),
            ..Kept::nothing()
        },
        Object::StopOfThread => Kept {
            sources: u64::from(t.0 == 0),
            ..Kept::nothing()
        },
        Object::SharedPromise { readers, .. } => Kept {
            is_retrieved: true,
            is_valid: has(readers.as_slice(), u64::from(t.0)),
            is_shared: has(readers.as_slice(), u64::from(t.0)),
            ..Kept::nothing()
        },
        _ => Kept::nothing(),
    }
}

impl Memory {
    /// What thread `t` remembers at its start, with memory for what it remembers later: a call registers at
    /// most one ID, and starts at most one thread.
    pub fn start(alloc: Global, plan: &Plan, t: ThreadNo) -> Result<Memory, NoMemory>
        ensures { IfOk result (λ m. m ≡ memory_at_start (scene_of plan.now) t.0) }
    {
        let calls = plan.body(t).len();
        let mut kept = Vec::with_capacity(alloc, plan.objects.len())?;
        for object in plan.objects.iter() {
            kept.push(kept_at_start(t, object))?;
        }
        Ok(Memory {
            kept,
            held: Vec::with_capacity(alloc, calls)?,
            joinable: Vec::with_capacity(alloc, calls)?,
            turns: 0,
        })
    }

    /// What is kept of object `o`.
    pub fn of(&self, o: ObjectNo) -> Kept
        ensures { result ≡ of self.now o }
    {
        self.kept
            .get(o.0 as usize)
            .copied()
            .unwrap_or(Kept::nothing())
    }

    /// Keeps `kept` of object `o`, where there is such an object.
    fn keep(&mut self, o: ObjectNo, kept: Kept)
        ensures { self.new ≡ keep self.old o kept }
    {
        let i = o.0 as usize;
        if i < self.kept.len() {
            self.kept[i] = kept;
        }
    }

    /// Whether the thread owns the mutex.
    pub fn owns(&self, o: ObjectNo) -> bool
        ensures { result ≡ owns self.now o }
    {
        self.of(o).levels > 0
    }

    /// Whether the thread owns or shares the mutex.
    pub fn has_any(&self, o: ObjectNo) -> bool
        ensures { result ≡ has_any self.now o }
    {
        self.owns(o) || self.of(o).reads
    }

    /// Whether the thread owns one of these mutexes.
    #[tactic(auto, using(crate::proofs::Walks::has_one_walk))]
    pub fn has_one(&self, mutexes: &[u32]) -> bool
        ensures { result ≡ has_one self.now mutexes.now }
    {
        for o in mutexes {
            if self.owns(ObjectNo(*o)) {
                return true;
            }
        }
        false
    }

    /// Whether the thread may join thread `t`.
    pub fn is_joinable(&self, t: ThreadNo) -> bool
        ensures { result ≡ is_joinable self.now t }
    {
        has(self.joinable.as_slice(), u64::from(t.0))
    }

    /// Whether the thread holds the registration of this ID.
    pub fn holds_id(&self, id: u64) -> bool
        ensures { result ≡ has self.now.held id }
    {
        has(self.held.as_slice(), id)
    }

    /// The ID of the registration of callback `k`, where the thread holds one.
    #[tactic(auto, using(crate::proofs::Walks::held_walk))]
    pub fn held_id(&self, plan: &Plan, k: CallbackNo) -> Option<u32>
        ensures { result ≡ held_id (scene_of plan.now) self.now.held k }
    {
        for id in self.held.iter() {
            if is_of(k, plan.registration(u64::from(*id))) {
                return Some(*id);
            }
        }
        None
    }

    /// Whether the thread may take one more turn.
    pub fn has_turns(&self) -> bool
        ensures { result ≡ nat_lt self.now.turns 16384 }
    {
        self.turns < u64::from(TURNS)
    }

    /// Takes a turn.
    pub fn take_turn(&mut self) -> Result<(), NoMemory>
        ensures { IfOk result (λ _. self.new ≡ record self.old { turns = self.old.turns + 1 }) }
    {
        self.turns = one_more(self.turns)?;
        Ok(())
    }

    /// Remembers an item of the thread's list.
    pub fn remember(&mut self, plan: &Plan, item: Item) -> Result<(), NoMemory>
        ensures { IfOk result (λ _. self.new ≡ remembering (scene_of plan.now) self.old item) }
    {
        match item {
            Item::Change(o, _, e) => {
                let kept = self.of(o).after(e.op)?;
                self.keep(o, kept);
                self.hold(e.op, e.a)?;
            }
            Item::Control(control) => self.control(plan, control)?,
            Item::Look(..) | Item::Said(_) => {}
        }
        Ok(())
    }

    /// Holds a registration, or gives it up.
    fn hold(&mut self, op: Op, id: i64) -> Result<(), NoMemory>
        ensures { IfOk result (λ _. self.new ≡ record self.old { held = held_after op id self.old.held }) }
    {
        match op {
            Op::Register if id >= 0 => {
                let id = u32::try_from(id).ok().ok_or(NoMemory)?;
                self.held.insert(0, id)?;
            }
            Op::Deregister if id >= 0 => {
                remove_from(&mut self.held, id as u64);
            }
            _ => {}
        }
        Ok(())
    }

    /// Remembers whom it has started, launched or joined.
    fn control(&mut self, plan: &Plan, control: Control) -> Result<(), NoMemory>
        ensures { IfOk result (λ _. self.new ≡ controlled (scene_of plan.now) self.old control) }
    {
        match control {
            Control::Start(t, true) => self.joinable.insert(0, t.0)?,
            Control::Launch(t, true) => {
                if let Some(Thread::Launched(o)) = plan.thread(t) {
                    let kept = Kept {
                        is_valid: true,
                        is_launched: true,
                        ..self.of(o)
                    };
                    self.keep(o, kept);
                }
            }
            Control::Join(t) => remove_from(&mut self.joinable, u64::from(t.0)),
            Control::Start(_, false) | Control::Launch(_, false) => {}
        }
        Ok(())
    }

    /// Remembers what the call and its reply leave.
    pub fn settle(&mut self, call: &Call, reply: Reply)
        ensures { self.new ≡ settled call.now reply self.old }
    {
        match (call, reply) {
            (Call::Arrive(b, _), Reply::Number(phase)) => {
                let arrival = Some(phase);
                self.keep(
                    *b,
                    Kept {
                        arrival,
                        ..self.of(*b)
                    },
                );
            }
            (Call::WaitBarrier(b), Reply::Ok) => {
                let arrival = None;
                self.keep(
                    *b,
                    Kept {
                        arrival,
                        ..self.of(*b)
                    },
                );
            }
            (Call::DropPromise(p), Reply::Ok) => {
                let is_dropped = true;
                self.keep(
                    *p,
                    Kept {
                        is_dropped,
                        ..self.of(*p)
                    },
                );
            }
            (Call::GetFuture(p), Reply::Ok) => {
                let kept = Kept {
                    is_retrieved: true,
                    is_valid: true,
                    ..self.of(*p)
                };
                self.keep(*p, kept);
            }
            (Call::Share(p), Reply::Ok) => {
                let is_shared = true;
                self.keep(
                    *p,
                    Kept {
                        is_shared,
                        ..self.of(*p)
                    },
                );
            }
            (Call::GetOutcome(p), Reply::Outcome(_)) => {
                let is_valid = self.of(*p).is_shared;
                self.keep(
                    *p,
                    Kept {
                        is_valid,
                        ..self.of(*p)
                    },
                );
            }
            (Call::DropAsync(a), Reply::Ok) => {
                let is_valid = false;
                self.keep(
                    *a,
                    Kept {
                        is_valid,
                        ..self.of(*a)
                    },
                );
            }
            _ => {}
        }
    }
}

/// Whether this is the registration of callback `k`.
fn is_of(k: CallbackNo, registered: Option<Registration>) -> bool
    ensures { result ≡ is_of k registered }
{
    match registered {
        Some(Registration::OfCallback(j)) => k.0 == j.0,
        _ => false,
    }
}
