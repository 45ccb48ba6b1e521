use crate::kind::{Entry, Op};
use crate::machine::{Machine, Meaning};
use crate::number::small;
use cx_names::{NoMemory, Reply, ThreadNo};
use std::marker::Model;

/// How far a once flag has come.
#[derive(Clone, Copy)]
enum Stage {
    Idle,
    Active(ThreadNo),
    Done,
}

/// The state of a once flag [thread.once.callonce].
#[derive(Drop)]
pub struct OnceState {
    stage: Stage,
}

impl Model for OnceState {
    ghost use Rattle.cx_machine.specs.Once.{Once};

    ghost Value = { Once };

    ghost use Rattle.cx_machine.specs.States.{once_of};

    ghost view = { λ o. once_of o.stage };
}

impl OnceState {
    ghost use Rattle.std.specs.Prelude.{◌≡◌, is_some};
    ghost use Rattle.cx_machine.specs.Words.{when, Applies};
    ghost use Rattle.cx_machine.specs.Once.{Idle, Active, Done, is_idle, is_active, is_done, step, shows};

    /// A flag that is idle.
    pub fn new() -> OnceState
        ensures { result ≡ Idle }
    {
        OnceState { stage: Stage::Idle }
    }

    fn is_idle(&self) -> bool
        ensures { result ≡ is_idle self.now }
    {
        match self.stage {
            Stage::Idle => true,
            _ => false,
        }
    }

    fn begin(&mut self, by: ThreadNo) -> bool
        ensures { Applies result (when (is_idle self.old) (Active by.0)) self.old self.new }
    {
        let allowed = self.is_idle();
        if allowed {
            self.stage = Stage::Active(by);
        }
        allowed
    }

    fn is_active(&self, by: ThreadNo) -> bool
        ensures { result ≡ is_active self.now by.0 }
    {
        match self.stage {
            Stage::Active(t) => t.0 == by.0,
            _ => false,
        }
    }

    fn finish(&mut self, by: ThreadNo) -> bool
        ensures { Applies result (when (is_active self.old by.0) Done) self.old self.new }
    {
        let allowed = self.is_active(by);
        if allowed {
            self.stage = Stage::Done;
        }
        allowed
    }

    fn fail(&mut self, by: ThreadNo) -> bool
        ensures { Applies result (when (is_active self.old by.0) Idle) self.old self.new }
    {
        let allowed = self.is_active(by);
        if allowed {
            self.stage = Stage::Idle;
        }
        allowed
    }

    fn is_done(&self) -> bool
        ensures { result ≡ is_done self.now }
    {
        match self.stage {
            Stage::Done => true,
            _ => false,
        }
    }

    /// Whether the change is enabled now, so that `apply` would make it. Nothing is changed.
    pub fn enables(&self, by: ThreadNo, op: Op, a: Option<u32>, b: i64, reply: Reply) -> bool
        ensures { result ≡ is_some (step self.now by.0 op a b reply) }
    {
        match (op, a, b, reply) {
            (Op::Begin, Some(0), 0, Reply::Ok) => self.is_idle(),
            (Op::Finish, Some(0), 0, Reply::Ok) => self.is_active(by),
            (Op::Fail, Some(_), 0, Reply::Ok) => self.is_active(by),
            _ => false,
        }
    }

    /// Makes the change where it is enabled, and answers whether it is.
    pub fn apply(&mut self, by: ThreadNo, op: Op, a: Option<u32>, b: i64, reply: Reply) -> bool
        ensures { Applies result (step self.old by.0 op a b reply) self.old self.new }
    {
        match (op, a, b, reply) {
            (Op::Begin, Some(0), 0, Reply::Ok) => self.begin(by),
            (Op::Finish, Some(0), 0, Reply::Ok) => self.finish(by),
            (Op::Fail, Some(_), 0, Reply::Ok) => self.fail(by),
            _ => false,
        }
    }

    /// Whether the look is shown.
    pub fn shows(&self, by: ThreadNo, op: Op, a: Option<u32>, b: i64, reply: Reply) -> bool
        ensures { result ≡ shows self.now by.0 op a b reply }
    {
        match (op, a, b, reply) {
            (Op::Passive, Some(0), 0, Reply::Ok) => self.is_done(),
            _ => false,
        }
    }
}

/// What a once flag is, by the standard. No value of it is made.
#[derive(Drop)]
pub struct OnceMachine;

impl Model for OnceMachine {
    ghost use Rattle.cx_machine.specs.Once.{Once, Idle};

    ghost Value = { Once };

    ghost view = { λ _. Idle };
}

impl Meaning for OnceMachine {
    ghost use Rattle.std.specs.Prelude.{[]};
    ghost use Rattle.cx_machine.specs.Acts.{at_entry, at_look};
    ghost use Rattle.cx_machine.specs.Once.{Once, Idle, step, shows};

    ghost step = { at_entry step };

    ghost shows = { at_look shows };

    ghost members = { λ _. [] };

    ghost most = { λ _ _. 0 };

    ghost any = { Idle };
}

impl Machine<OnceMachine> for OnceState {
    ghost use Rattle.std.specs.Prelude.{◌≡◌, ◌^◌, refl};
    ghost use Rattle.std.proofs.Common.{rules};

    type Hand = ();

    ghost meaning = { λ s. s };

    ghost spare = { λ _. 2 ^ 32 };

    ghost moves = { λ s h e t k. h ≡ k };

    ghost alike = { λ s t. s ≡ t };

    fn reply(&self, by: ThreadNo, op: Op, a: i64, b: i64) -> Option<Reply> {
        match (op, small(a), b) {
            (Op::Begin, Some(0), 0) => self.is_idle().then_some(Reply::Ok),
            (Op::Finish, Some(0), 0) => self.is_active(by).then_some(Reply::Ok),
            (Op::Fail, Some(_), 0) => self.is_active(by).then_some(Reply::Ok),
            _ => None,
        }
    }

    fn show(&self, _by: ThreadNo, op: Op, a: i64, b: i64) -> Option<Reply> {
        match (op, small(a), b) {
            (Op::Passive, Some(0), 0) => self.is_done().then_some(Reply::Ok),
            _ => None,
        }
    }

    fn make(&mut self, e: &Entry, _hand: &mut Option<()>) {
        let _made = self.apply(e.by, e.op, small(e.a), e.b, e.reply);
    }

    fn reserve(&mut self, _n: u32) -> Result<(), NoMemory> {
        Ok(())
    }

    fn most(&self, _seats: u32) -> u32 {
        0
    }

    fn pool(&self) -> u32 {
        0
    }

    fn debt(&self) -> u32 {
        0
    }

    ghost lives_on = { λ m n e id s. Prim.search rules };

    ghost most_stays = { λ m n e seats s. refl };

    ghost most_holds = { λ m n seats es none below s. Prim.search rules };

    ghost once_each = { λ s id. Prim.search rules };
}
