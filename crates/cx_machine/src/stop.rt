ghost use Rattle.std.specs.Prelude.{◌≡◌, ℕ, ◌+◌, ◌≤◌, ◌++◌, vec_len, vec_capacity};
ghost use Rattle.cx_machine.specs.Callbacks.{ids};
ghost use Rattle.cx_machine.specs.Meaning.{IsOnceEach, times};
ghost use Rattle.cx_machine.specs.Stop.{runs, is_running, ended_by};

use crate::ids::Ids;
use crate::kind::{Entry, Op};
use crate::machine::Meaning;
use crate::number::small;
use crate::sets::remove_from;
use cx_names::{NoMemory, Reply, ThreadNo};
use std::alloc::Global;
use std::marker::Model;

/// A callback that runs, and the thread that runs it.
#[derive(Clone, Copy)]
pub struct Running {
    pub thread: u32,
    pub id: u32,
}

/// Whether this thread runs this callback.
fn runs(running: &[Running], by: u32, id: u32) -> bool
    ensures { result ≡ runs running.now by id }
{
    running.iter().any(|r| r.thread == by && r.id == id)
}

/// Whether some thread runs this callback.
fn is_running(running: &[Running], id: u32) -> bool
    ensures { result ≡ is_running running.now id }
{
    running.iter().any(|r| r.id == id)
}

/// Takes out the callback that this thread runs. Its room stays.
fn remove_running(running: &mut Vec<Running>, by: u32, id: u32)
    ensures left { running.new.items ≡ ended_by running.old.items by id }
    ensures room { vec_capacity running.new ≡ vec_capacity running.old }
{
    running.retain(|r| !(r.thread == by && r.id == id));
}

/// The state of a stop state [thread.stoptoken].
#[derive(Drop)]
pub struct StopState {
    requester: Option<ThreadNo>,
    sources: u32,

    // In the order of registration, and again in rising order.
    registered: Vec<u32>,
    index: Ids,
    running: Vec<Running>,
    ended: Ids,
    gone: Ids,

    // How many more callbacks may be registered without taking memory. A callback may come into
    // each of the lists, so each has room for all of them.
    room: usize,
    ghost once: { IsOnceEach (registered.items ++ (ids running.items ++ (ended.rising.items ++ gone.rising.items))) },
    ghost indexed: { (id : ℕ) → times id index.rising.items ≡ times id registered.items },
    ghost index_len: { vec_len index.rising ≡ vec_len registered },
    ghost to_register: { vec_len registered + vec_len running + vec_len ended.rising + vec_len gone.rising + room ≤ vec_capacity registered },
    ghost to_index: { vec_len registered + vec_len running + vec_len ended.rising + vec_len gone.rising + room ≤ vec_capacity index.rising },
    ghost to_run: { vec_len registered + vec_len running + vec_len ended.rising + vec_len gone.rising + room ≤ vec_capacity running },
    ghost to_end: { vec_len registered + vec_len running + vec_len ended.rising + vec_len gone.rising + room ≤ vec_capacity ended.rising },
    ghost to_go: { vec_len registered + vec_len running + vec_len ended.rising + vec_len gone.rising + room ≤ vec_capacity gone.rising },
}

impl StopState {
    ghost use Rattle.std.specs.Prelude.{◌≡◌, ◌&&◌, ◌+◌, ◌-◌, ◌^◌, ◌<◌, ◌≤◌, true, not, nat_lt, pos, Some, None, slice_get, IfSome, IfNone, IfOk, IfErr, IsSome, IsOk, OnErr, is_some, vec_len};
    ghost use Rattle.cx_names.specs.declared.Reply.{Reply};
    ghost use Rattle.cx_machine.specs.declared.kind.Op.TheVariants as ops;
    ghost use Rattle.cx_machine.specs.Words.{when, is_thread, has, Applies};
    ghost use Rattle.cx_machine.specs.Stop.{opening, is_requested, is_possible, is_never, is_drained, can_add, can_register, can_register_now, can_begin, runs, is_fresh, requested, with_another, without_one, registered_too, began, finished, removed, ran, step, shows};
    ghost use Rattle.cx_machine.specs.Acts.{at_entry};
    ghost use Rattle.cx_machine.specs.Callbacks.{HasRoom, debt};
    ghost use Rattle.cx_machine.specs.States.{stop_of, stop_total};

    /// A stop state without a request, and this many sources.
    pub fn new(alloc: Global, sources: u32) -> StopState
        ensures state { stop_of result ≡ opening sources }
        ensures room { stop_total result ≡ 0 }
    {
        StopState {
            requester: None,
            sources,
            registered: Vec::new(alloc),
            index: Ids::new(alloc),
            running: Vec::new(alloc),
            ended: Ids::new(alloc),
            gone: Ids::new(alloc),
            room: 0,
        }
    }

    pub(crate) fn is_requested(&self) -> bool
        ensures { result ≡ is_requested (stop_of self.now) }
    {
        self.requester.is_some()
    }

    pub(crate) fn is_possible(&self) -> bool
        ensures { result ≡ is_possible (stop_of self.now) }
    {
        self.is_requested() || self.sources > 0
    }

    /// Whether the callback is registered, in logarithmic steps.
    fn is_registered(&self, id: u32) -> bool
        ensures { result ≡ has (stop_of self.now).registered id }
    {
        self.index.has(id)
    }

    fn is_fresh(&self, by: ThreadNo, id: u32) -> bool
        ensures { result ≡ is_fresh (stop_of self.now) by.0 id }
    {
        id / 4096 == by.0
            && !(self.is_registered(id)
                || is_running(&self.running, id)
                || self.ended.has(id)
                || self.gone.has(id))
    }

    fn is_requester(&self, by: ThreadNo) -> bool
        ensures { result ≡ is_thread (stop_of self.now).requester by.0 }
    {
        match self.requester {
            None => false,
            Some(t) => t.0 == by.0,
        }
    }

    /// The callback that was registered first, of those that are registered.
    pub fn first_registered(&self) -> Option<u32>
        ensures { result ≡ slice_get (stop_of self.now).registered 0 }
    {
        self.registered.first().copied()
    }

    /// Makes room for `n` more callbacks.
    pub(crate) fn make_room(&mut self, n: usize) -> Result<(), NoMemory>
        requires { n < 4_294_967_296 }
        ensures state { stop_of self.new ≡ stop_of self.old }
        ensures room { IfOk result (λ _. n ≤ self.new.room) }
        ensures more { self.old.room ≤ self.new.room }
        ensures refused { IfErr result (λ _. self.new.room ≡ self.old.room) }
        ensures there { n ≤ self.old.room → IsOk result × (stop_total self.new ≡ stop_total self.old) }
        ensures grown { IfOk result (λ _. self.old.room < n → self.new.room ≡ n) }
        ensures total { stop_total self.new + self.old.room ≡ stop_total self.old + self.new.room }
    {
        if self.room < n {
            let others = self.running.len() + self.ended.len() + self.gone.len();
            self.registered.reserve(others + n)?;
            self.index.reserve(others + n)?;
            let others = self.registered.len() + self.ended.len() + self.gone.len();
            self.running.reserve(others + n)?;
            let others = self.registered.len() + self.running.len() + self.gone.len();
            self.ended.reserve(others + n)?;
            let others = self.registered.len() + self.running.len() + self.ended.len();
            self.gone.reserve(others + n)?;
            self.room = n;
        }
        Ok(())
    }

    fn request(&mut self, by: ThreadNo) -> bool
        ensures made { Applies result (when (not (is_requested (stop_of self.old))) (requested (stop_of self.old) by.0)) (stop_of self.old) (stop_of self.new) }
        ensures room { stop_total self.new ≡ stop_total self.old }
    {
        let allowed = !self.is_requested();
        if allowed {
            self.requester = Some(by);
        }
        allowed
    }

    fn another(&mut self) -> bool
        ensures made { Applies result (when (can_add (stop_of self.old)) (with_another (stop_of self.old))) (stop_of self.old) (stop_of self.new) }
        ensures room { stop_total self.new ≡ stop_total self.old }
    {
        let allowed = self.can_add();
        if allowed {
            self.sources += 1;
        }
        allowed
    }

    fn drop_one(&mut self) -> bool
        ensures made { Applies result (when (nat_lt 0 (stop_of self.old).sources) (without_one (stop_of self.old))) (stop_of self.old) (stop_of self.new) }
        ensures room { stop_total self.new ≡ stop_total self.old }
    {
        let allowed = self.sources > 0;
        if allowed {
            self.sources -= 1;
        }
        allowed
    }

    fn put(&mut self, by: ThreadNo, id: u32)
        requires fresh { is_fresh (stop_of self.old) by.0 id ≡ true }
        requires room { 0 < self.old.room }
        ensures state { stop_of self.new ≡ registered_too (stop_of self.old) id }
        ensures room { stop_total self.new ≡ stop_total self.old }
    {
        self.registered.push_reserved(id);
        self.index.insert(id);
        self.room -= 1;
    }

    fn register(&mut self, by: ThreadNo, id: u32) -> Result<bool, NoMemory>
        ensures made { IfOk result (λ made. Applies made (when (can_register (stop_of self.old) by.0 id) (registered_too (stop_of self.old) id)) (stop_of self.old) (stop_of self.new)) }
        ensures err { OnErr result (stop_of self.new ≡ stop_of self.old) }
        ensures room { HasRoom self.old.room (stop_of self.old) (when (can_register (stop_of self.old) by.0 id) (registered_too (stop_of self.old) id)) → IsOk result × (stop_total self.new ≡ stop_total self.old) }
    {
        let allowed = self.can_register(by, id);
        if allowed {
            self.make_room(1)?;
            self.put(by, id);
        }
        Ok(allowed)
    }

    fn run(&mut self, by: ThreadNo, id: u32)
        requires fresh { is_fresh (stop_of self.old) by.0 id ≡ true }
        requires room { 0 < self.old.room }
        ensures state { stop_of self.new ≡ began (stop_of self.old) by.0 id }
        ensures room { stop_total self.new ≡ stop_total self.old }
    {
        self.running.push_reserved(Running { thread: by.0, id });
        self.room -= 1;
    }

    fn register_now(&mut self, by: ThreadNo, id: u32) -> Result<bool, NoMemory>
        ensures made { IfOk result (λ made. Applies made (when (can_register_now (stop_of self.old) by.0 id) (began (stop_of self.old) by.0 id)) (stop_of self.old) (stop_of self.new)) }
        ensures err { OnErr result (stop_of self.new ≡ stop_of self.old) }
        ensures room { HasRoom self.old.room (stop_of self.old) (when (can_register_now (stop_of self.old) by.0 id) (began (stop_of self.old) by.0 id)) → IsOk result × (stop_total self.new ≡ stop_total self.old) }
    {
        let allowed = self.can_register_now(by, id);
        if allowed {
            self.make_room(1)?;
            self.run(by, id);
        }
        Ok(allowed)
    }

    fn begin(&mut self, by: ThreadNo, id: u32) -> bool
        ensures made { Applies result (when (can_begin (stop_of self.old) by.0 id) (began (stop_of self.old) by.0 id)) (stop_of self.old) (stop_of self.new) }
        ensures room { stop_total self.new ≡ stop_total self.old }
    {
        let allowed = self.can_begin(by, id);
        if allowed {
            self.running.push_reserved(Running { thread: by.0, id });
            remove_from(&mut self.registered, id);
            self.index.remove(id);
        }
        allowed
    }

    fn finish(&mut self, by: ThreadNo, id: u32) -> bool
        ensures made { Applies result (when (runs (stop_of self.old).running by.0 id) (finished (stop_of self.old) by.0 id)) (stop_of self.old) (stop_of self.new) }
        ensures room { stop_total self.new ≡ stop_total self.old }
    {
        let allowed = runs(&self.running, by.0, id);
        if allowed {
            self.ended.insert(id);
            remove_running(&mut self.running, by.0, id);
        }
        allowed
    }

    fn remove(&mut self, id: u32) -> bool
        ensures made { Applies result (when (has (stop_of self.old).registered id) (removed (stop_of self.old) id)) (stop_of self.old) (stop_of self.new) }
        ensures room { stop_total self.new ≡ stop_total self.old }
    {
        let allowed = self.is_registered(id);
        if allowed {
            self.gone.insert(id);
            remove_from(&mut self.registered, id);
            self.index.remove(id);
        }
        allowed
    }

    fn let_go(&mut self, id: u32) -> bool
        ensures made { Applies result (when (has (stop_of self.old).ended id) (ran (stop_of self.old) id)) (stop_of self.old) (stop_of self.new) }
        ensures room { stop_total self.new ≡ stop_total self.old }
    {
        let allowed = self.ended.has(id);
        if allowed {
            self.gone.insert(id);
            self.ended.remove(id);
        }
        allowed
    }

    pub(crate) fn can_add(&self) -> bool
        ensures { result ≡ can_add (stop_of self.now) }
    {
        self.sources > 0 && self.sources < u32::MAX
    }

    pub(crate) fn can_register(&self, by: ThreadNo, id: u32) -> bool
        ensures { result ≡ can_register (stop_of self.now) by.0 id }
    {
        !self.is_requested() && self.sources > 0 && self.is_fresh(by, id)
    }

    pub(crate) fn can_register_now(&self, by: ThreadNo, id: u32) -> bool
        ensures { result ≡ can_register_now (stop_of self.now) by.0 id }
    {
        self.is_requested() && self.is_fresh(by, id)
    }

    pub(crate) fn can_begin(&self, by: ThreadNo, id: u32) -> bool
        ensures { result ≡ can_begin (stop_of self.now) by.0 id }
    {
        self.is_requester(by) && self.is_registered(id)
    }

    pub(crate) fn can_finish(&self, by: ThreadNo, id: u32) -> bool
        ensures { result ≡ runs (stop_of self.now).running by.0 id }
    {
        runs(&self.running, by.0, id)
    }

    /// The reply of a deregistration now, where one is enabled: of a callback that hasn't begun, of
    /// one that ended, or of one that this thread runs.
    pub(crate) fn deregistered(&self, by: ThreadNo, id: u32) -> Option<Reply>
        ensures enabled { IfSome result (λ r. IsSome (step (stop_of self.now) by.0 ops.Deregister (Some id) (pos 0) r)) }
        ensures none { IfNone result ((r : Reply) → step (stop_of self.now) by.0 ops.Deregister (Some id) (pos 0) r ≡ None) }
    {
        if self.is_registered(id) {
            Some(Reply::Removed)
        } else if self.ended.has(id) {
            Some(Reply::Ran)
        } else {
            runs(&self.running, by.0, id).then_some(Reply::Inside)
        }
    }

    pub(crate) fn is_never(&self, by: ThreadNo, id: u32) -> bool
        ensures { result ≡ is_never (stop_of self.now) by.0 id }
    {
        !self.is_requested() && self.sources == 0 && self.is_fresh(by, id)
    }

    pub(crate) fn is_drained(&self) -> bool
        ensures { result ≡ is_drained (stop_of self.now) }
    {
        self.is_requested() && self.registered.is_empty()
    }

    pub(crate) fn sources(&self) -> u32
        ensures { result ≡ (stop_of self.now).sources }
    {
        self.sources
    }

    pub(crate) fn room(&self) -> usize
        ensures { result ≡ self.now.room }
    {
        self.room
    }

    /// How many callbacks run, ended or are gone.
    pub(crate) fn unregistered(&self) -> usize
        ensures sum { result ≡ vec_len self.now.running + vec_len self.now.ended.rising + vec_len self.now.gone.rising }
        ensures small { result < 2 ^ 63 }
    {
        self.running.len() + self.ended.len() + self.gone.len()
    }

    /// How many changes of the registered and of the running callbacks are already paid for.
    pub(crate) fn debt(&self) -> u32
        requires { debt (stop_of self.now) < 2 ^ 32 }
        ensures { result ≡ debt (stop_of self.now) }
    {
        (2 * self.registered.len() + self.running.len()) as u32
    }

    /// Whether the change is enabled now, so that `apply` would make it. Nothing is changed.
    pub fn enables(&self, by: ThreadNo, op: Op, a: Option<u32>, b: i64, reply: Reply) -> bool
        ensures { result ≡ is_some (step (stop_of self.now) by.0 op a b reply) }
    {
        match (op, a, b, reply) {
            (Op::Request, Some(0), 0, Reply::Ok) => !self.is_requested(),
            (Op::Another, Some(0), 0, Reply::Ok) => self.can_add(),
            (Op::Drop, Some(0), 0, Reply::Ok) => self.sources > 0,
            (Op::Register, Some(id), 0, Reply::Ok) => self.can_register(by, id),
            (Op::RegisterNow, Some(id), 0, Reply::Ok) => self.can_register_now(by, id),
            (Op::Begin, Some(id), 0, Reply::Ok) => self.can_begin(by, id),
            (Op::Finish, Some(id), 0, Reply::Ok) => runs(&self.running, by.0, id),
            (Op::Deregister, Some(id), 0, Reply::Removed) => self.is_registered(id),
            (Op::Deregister, Some(id), 0, Reply::Ran) => self.ended.has(id),
            (Op::Deregister, Some(id), 0, Reply::Inside) => runs(&self.running, by.0, id),
            _ => false,
        }
    }

    /// Makes the change where it is enabled, and answers whether it is. Only a registration takes
    /// memory; where that runs out the state is as it was.
    pub fn apply(
        &mut self,
        by: ThreadNo,
        op: Op,
        a: Option<u32>,
        b: i64,
        reply: Reply,
    ) -> Result<bool, NoMemory>
        ensures made { IfOk result (λ made. Applies made (step (stop_of self.old) by.0 op a b reply) (stop_of self.old) (stop_of self.new)) }
        ensures err { OnErr result (stop_of self.new ≡ stop_of self.old) }
        ensures room { HasRoom self.old.room (stop_of self.old) (step (stop_of self.old) by.0 op a b reply) → IsOk result × (stop_total self.new ≡ stop_total self.old) }
    {
        match (op, a, b, reply) {
            (Op::Request, Some(0), 0, Reply::Ok) => Ok(self.request(by)),
            (Op::Another, Some(0), 0, Reply::Ok) => Ok(self.another()),
            (Op::Drop, Some(0), 0, Reply::Ok) => Ok(self.drop_one()),
            (Op::Register, Some(id), 0, Reply::Ok) => self.register(by, id),
            (Op::RegisterNow, Some(id), 0, Reply::Ok) => self.register_now(by, id),
            (Op::Begin, Some(id), 0, Reply::Ok) => Ok(self.begin(by, id)),
            (Op::Finish, Some(id), 0, Reply::Ok) => Ok(self.finish(by, id)),
            (Op::Deregister, Some(id), 0, Reply::Removed) => Ok(self.remove(id)),
            (Op::Deregister, Some(id), 0, Reply::Ran) => Ok(self.let_go(id)),
            (Op::Deregister, Some(id), 0, Reply::Inside) => Ok(runs(&self.running, by.0, id)),
            _ => Ok(false),
        }
    }

    /// Makes the change, which is enabled and for which there is room.
    pub(crate) fn make(&mut self, e: &Entry)
        requires enabled { IsSome (at_entry step (stop_of self.old) e.now) }
        requires room { HasRoom self.old.room (stop_of self.old) (at_entry step (stop_of self.old) e.now) }
        ensures state { at_entry step (stop_of self.old) e.now ≡ Some (stop_of self.new) }
        ensures room { stop_total self.new ≡ stop_total self.old }
    {
        let _made = self.apply(e.by, e.op, small(e.a), e.b, e.reply);
    }

    /// Whether the look is shown.
    pub fn shows(&self, by: ThreadNo, op: Op, a: Option<u32>, b: i64, reply: Reply) -> bool
        ensures { result ≡ shows (stop_of self.now) by.0 op a b reply }
    {
        match (op, a, b, reply) {
            (Op::Already, Some(0), 0, Reply::Ok) => self.is_requested(),
            (Op::StopRequested, Some(0), 0, Reply::True) => self.is_requested(),
            (Op::StopRequested, Some(0), 0, Reply::False) => !self.is_requested(),
            (Op::StopPossible, Some(0), 0, Reply::True) => self.is_possible(),
            (Op::StopPossible, Some(0), 0, Reply::False) => !self.is_possible(),
            (Op::Never, Some(id), 0, Reply::Ok) => self.is_never(by, id),
            (Op::Drained, Some(0), 0, Reply::Ok) => self.is_drained(),
            _ => false,
        }
    }
}

/// What a stop state is, by the standard. No value of it is made.
#[derive(Drop)]
pub struct StopMachine;

impl Model for StopMachine {
    ghost use Rattle.cx_machine.specs.Stop.{Stop, opening};

    ghost Value = { Stop };

    ghost view = { λ _. opening 0 };
}

impl Meaning for StopMachine {
    ghost use Rattle.std.specs.Prelude.{◌*◌};
    ghost use Rattle.cx_machine.specs.Acts.{at_entry, at_look};
    ghost use Rattle.cx_machine.specs.Stop.{Stop, opening, step, shows};
    ghost use Rattle.cx_machine.specs.Callbacks.{members, debt, given, taken_back, lives};
    ghost use Rattle.cx_machine.specs.Words.{small_of};

    ghost step = { at_entry step };

    ghost shows = { at_look shows };

    ghost members = { members };

    ghost most = { λ s seats. seats * 4096 };

    ghost pool = { λ (s : Stop). s.sources };

    ghost debt = { debt };

    ghost gives = { λ s e. given e.op (small_of e.a) };

    ghost takes = { λ s e. taken_back e.op (small_of e.a) };

    ghost lives = { lives };

    ghost any = { opening 0 };
}
