ghost use Rattle.std.specs.Prelude.{◌≡◌};
ghost use Rattle.cx_machine.specs.Words.{small_of, outcome_of};

use crate::kind::{Entry, Op};
use crate::machine::{Machine, Meaning};
use crate::number::small;
use cx_names::{NoMemory, Outcome, Reply, ThreadNo};
use std::marker::Model;

/// The outcome that the two numbers of `set` stand for.
fn outcome_of(a: Option<u32>, b: i64) -> Option<Outcome>
    ensures { result ≡ outcome_of a b }
{
    match (a, b) {
        (Some(0), v) => Some(Outcome::Value(v)),
        (Some(1), e) => match small(e) {
            Some(e) => Some(Outcome::Exception(e)),
            None => None,
        },
        (Some(2), 0) => Some(Outcome::Broken),
        _ => None,
    }
}

/// How far a shared state has come.
#[derive(Clone, Copy)]
enum Stage {
    Fresh,
    Deferred,
    Running(ThreadNo),
    Ready(Outcome),
}

/// The shared state of a future [futures].
#[derive(Drop)]
pub struct FutureState {
    stage: Stage,
}

impl Model for FutureState {
    ghost use Rattle.cx_machine.specs.Future.{Future};

    ghost Value = { Future };

    ghost use Rattle.cx_machine.specs.States.{future_of};

    ghost view = { λ f. future_of f.stage };
}

impl FutureState {
    ghost use Rattle.std.specs.Prelude.{◌≡◌, ◌||◌, IfSome, IfNone, IsTrue, false, is_some};
    ghost use Rattle.cx_names.specs.declared.Reply.{Reply};
    ghost use Rattle.cx_machine.specs.Words.{outcome_of, when, Applies};
    ghost use Rattle.cx_machine.specs.Future.{Fresh, Deferred, Running, is_fresh, is_deferred, runs, set, is_ready, step, shows};
    ghost use Rattle.cx_machine.specs.Now.{outcome_now};

    /// A shared state that is fresh.
    pub fn new() -> FutureState
        ensures { result ≡ Fresh }
    {
        FutureState {
            stage: Stage::Fresh,
        }
    }

    /// The outcome, or `ok` where it isn't ready.
    pub fn outcome_now(&self) -> Reply
        ensures { result ≡ outcome_now self.now }
    {
        match self.stage {
            Stage::Ready(outcome) => Reply::Outcome(outcome),
            _ => Reply::Ok,
        }
    }

    /// The outcome, as a reply, where it is ready.
    fn outcome(&self) -> Option<Reply>
        ensures ready { IfSome result (λ r. IsTrue (is_ready self.now r)) }
        ensures none { IfNone result ((r : Reply) → is_ready self.now r ≡ false) }
    {
        match self.stage {
            Stage::Ready(outcome) => Some(Reply::Outcome(outcome)),
            _ => None,
        }
    }

    fn is_fresh(&self) -> bool
        ensures { result ≡ is_fresh self.now }
    {
        match self.stage {
            Stage::Fresh => true,
            _ => false,
        }
    }

    fn is_deferred(&self) -> bool
        ensures { result ≡ is_deferred self.now }
    {
        match self.stage {
            Stage::Deferred => true,
            _ => false,
        }
    }

    fn defer(&mut self) -> bool
        ensures { Applies result (when (is_fresh self.old) Deferred) self.old self.new }
    {
        let allowed = self.is_fresh();
        if allowed {
            self.stage = Stage::Deferred;
        }
        allowed
    }

    fn run(&mut self, by: ThreadNo) -> bool
        ensures { Applies result (when (is_deferred self.old) (Running by.0)) self.old self.new }
    {
        let allowed = self.is_deferred();
        if allowed {
            self.stage = Stage::Running(by);
        }
        allowed
    }

    fn can_set(&self, by: ThreadNo) -> bool
        ensures { result ≡ (is_fresh self.now || runs self.now by.0) }
    {
        match self.stage {
            Stage::Fresh => true,
            Stage::Running(t) => t.0 == by.0,
            _ => false,
        }
    }

    fn set(&mut self, by: ThreadNo, outcome: Option<Outcome>) -> bool
        ensures { Applies result (set (is_fresh self.old || runs self.old by.0) outcome) self.old self.new }
    {
        let Some(outcome) = outcome else {
            return false;
        };
        let allowed = self.can_set(by);
        if allowed {
            self.stage = Stage::Ready(outcome);
        }
        allowed
    }

    /// Whether the change is enabled now, so that `apply` would make it. Nothing is changed.
    pub fn enables(&self, by: ThreadNo, op: Op, a: Option<u32>, b: i64, reply: Reply) -> bool
        ensures { result ≡ is_some (step self.now by.0 op a b reply) }
    {
        match (op, a, b, reply) {
            (Op::Defer, Some(0), 0, Reply::Ok) => self.is_fresh(),
            (Op::Run, Some(0), 0, Reply::Ok) => self.is_deferred(),
            (Op::Set, a, b, Reply::Ok) => self.can_set(by) && outcome_of(a, b).is_some(),
            _ => false,
        }
    }

    /// Makes the change where it is enabled, and answers whether it is.
    pub fn apply(&mut self, by: ThreadNo, op: Op, a: Option<u32>, b: i64, reply: Reply) -> bool
        ensures { Applies result (step self.old by.0 op a b reply) self.old self.new }
    {
        match (op, a, b, reply) {
            (Op::Defer, Some(0), 0, Reply::Ok) => self.defer(),
            (Op::Run, Some(0), 0, Reply::Ok) => self.run(by),
            (Op::Set, a, b, Reply::Ok) => self.set(by, outcome_of(a, b)),
            _ => false,
        }
    }

    /// Whether the look is shown.
    pub fn shows(&self, by: ThreadNo, op: Op, a: Option<u32>, b: i64, reply: Reply) -> bool
        ensures { result ≡ shows self.now by.0 op a b reply }
    {
        match (op, a, b) {
            (Op::Ready, Some(0), 0) => self.is_ready(reply),
            _ => false,
        }
    }

    fn is_ready(&self, reply: Reply) -> bool
        ensures { result ≡ is_ready self.now reply }
    {
        match (self.stage, reply) {
            (Stage::Ready(Outcome::Value(v)), Reply::Outcome(Outcome::Value(w))) => v == w,
            (Stage::Ready(Outcome::Exception(e)), Reply::Outcome(Outcome::Exception(f))) => e == f,
            (Stage::Ready(Outcome::Broken), Reply::Outcome(Outcome::Broken)) => true,
            _ => false,
        }
    }
}

/// What the shared state of a future is, by the standard. No value of it is made.
#[derive(Drop)]
pub struct FutureMachine;

impl Model for FutureMachine {
    ghost use Rattle.cx_machine.specs.Future.{Future, Fresh};

    ghost Value = { Future };

    ghost view = { λ _. Fresh };
}

impl Meaning for FutureMachine {
    ghost use Rattle.std.specs.Prelude.{[]};
    ghost use Rattle.cx_machine.specs.Acts.{at_entry, at_look};
    ghost use Rattle.cx_machine.specs.Future.{Future, Fresh, step, shows};

    ghost step = { at_entry step };

    ghost shows = { at_look shows };

    ghost members = { λ _. [] };

    ghost most = { λ _ _. 0 };

    ghost any = { Fresh };
}

impl Machine<FutureMachine> for FutureState {
    ghost use Rattle.std.specs.Prelude.{◌≡◌, ◌^◌, refl};
    ghost use Rattle.std.proofs.Common.{rules};

    type Hand = ();

    ghost meaning = { λ s. s };

    ghost spare = { λ _. 2 ^ 32 };

    ghost moves = { λ s h e t k. h ≡ k };

    ghost alike = { λ s t. s ≡ t };

    fn reply(&self, by: ThreadNo, op: Op, a: i64, b: i64) -> Option<Reply> {
        match (op, small(a), b) {
            (Op::Defer, Some(0), 0) => self.is_fresh().then_some(Reply::Ok),
            (Op::Run, Some(0), 0) => self.is_deferred().then_some(Reply::Ok),
            (Op::Set, a, b) => (self.can_set(by) && outcome_of(a, b).is_some()).then_some(
                Reply::Ok,
            ),
            _ => None,
        }
    }

    fn show(&self, _by: ThreadNo, op: Op, a: i64, b: i64) -> Option<Reply> {
        match (op, small(a), b) {
            (Op::Ready, Some(0), 0) => self.outcome(),
            _ => None,
        }
    }

    fn make(&mut self, e: &Entry, _hand: &mut Option<()>) {
        let _made = self.apply(e.by, e.op, small(e.a), e.b, e.reply);
    }

    fn reserve(&mut self, _n: u32) -> Result<(), NoMemory> {
        Ok(())
    }

    fn most(&self, _seats: u32) -> u32 {
        0
    }

    fn pool(&self) -> u32 {
        0
    }

    fn debt(&self) -> u32 {
        0
    }

    ghost lives_on = { λ m n e id s. Prim.search rules };

    ghost most_stays = { λ m n e seats s. refl };

    ghost most_holds = { λ m n seats es none below s. Prim.search rules };

    ghost once_each = { λ s id. Prim.search rules };
}
