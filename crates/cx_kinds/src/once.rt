//! Once flags [thread.once.onceflag].
ghost use Rattle.std.specs.Prelude.{◌≡◌, ◌≤◌, ℕ, pos, None, is_some, IfOk, refl};
ghost use Rattle.std.proofs.Common.{sym, ◌∙◌};
ghost use Rattle.cx_names.specs.declared.Reply.TheVariants as replies;
ghost use Rattle.cx_machine.specs.Machine as all;
ghost use Rattle.cx_machine.specs.Once as machine;
ghost use Rattle.cx_machine.specs.Meaning.{change};
ghost use Rattle.cx_machine.specs.declared.kind.Op.TheVariants as ops;
ghost use Rattle.cx_turn.specs.declared.view.View.{View};
ghost use Rattle.cx_turn.specs.Acts.{Makes, DoesEither};
ghost use Rattle.cx_turn.proofs.Histories.{head_is};
ghost use Rattle.cx_cell.specs.Cells.{cell_start};
ghost use Rattle.cx_sync.specs.Kinds.{executing, kept as kept_state};
ghost use Rattle.cx_items.specs.Memory.{nothing};
ghost use Rattle.cx_asks.specs.Asks.{asks_once};
ghost use Rattle.cx_kinds.specs.Seats.{KnowsSeat};
ghost use Rattle.cx_kinds.specs.Sights.{IsNew};
ghost use Rattle.cx_kinds.specs.Tokens.{IsOnceToken};

use crate::seat::{Seat, seated};
use crate::shared::Shared;
use cx_asks::Ask;
use cx_machine::{OnceMachine, Op};
use cx_names::{NoMemory, PASS_CHANGES, Reply, ThreadNo};
use cx_sync::{Active, Begun, OnceFlag, OncePass};
use cx_turn::Either;
use std::alloc::Global;
use std::sync::Wait;

// The error of a function that a thread gives up.
const GIVEN_UP: u32 = 0;

/// What a thread has of a once flag.
#[derive(Drop)]
pub struct OnceToken {
    /// The thread's pass.
    pub pass: OncePass,
    /// The thread's active execution, where it has one [thread.once.callonce].
    pub active: Option<Active>,
}

/// A once flag for so many threads, and main's seat at it.
pub(crate) fn uncalled(alloc: Global, threads: u32) -> Result<Seat<OnceFlag>, NoMemory>
    requires threads { (1 ≤ threads) × (threads ≤ 64) }
    ensures { IfOk result (λ s. IsNew threads (all.Once machine.Idle) 0 (KnowsSeat IsOnceToken (λ k. k.pass.share) (λ x. cell_start kept_state x.cell) all.Once s)) }
{
    let calls = PASS_CHANGES * threads;
    let (flag, pass) = OnceFlag::new(alloc, threads, calls)?;
    let seat = seated(alloc, flag, OnceToken { pass, active: None })?;
    Ok(seat)
}

// Begins an execution, or sees that one had returned.
fn begin<R: Wait>(rt: &R, flag: &OnceFlag, token: &mut OnceToken) -> Either
    requires token { (v : View machine.Once) × IsOnceToken flag.now token.old v }
    requires left { 1 ≤ token.old.pass.left }
    ensures did { (v : View machine.Once) → IsOnceToken flag.now token.old v → (w : View machine.Once) × IsOnceToken flag.now token.new w × DoesEither executing token.old.pass.number ops.Begin ops.Passive (pos 0) (pos 0) v w result }
{
    match flag.begin(rt, &mut token.pass) {
        Begun::Active(active, at) => {
            token.active = Some(active);
            Either::Made(Reply::Ok, at)
        }
        Begun::Passive(at) => {
            token.active = None;
            Either::Seen(Reply::Ok, at)
        }
    }
}

// The active execution returns. Only its thread may end it: another waits for ever.
fn finish<R: Wait>(rt: &R, flag: &OnceFlag, token: &mut OnceToken) -> u32
    requires token { (v : View machine.Once) × IsOnceToken flag.now token.old v }
    requires left { 1 ≤ token.old.pass.left }
    ensures did { (v : View machine.Once) → IsOnceToken flag.now token.old v → (w : View machine.Once) × IsOnceToken flag.now token.new w × Makes executing v w (change token.old.pass.number ops.Finish (pos 0) (pos 0) replies.Ok) result }
{
    if let Some(active) = token.active.take() {
        return flag.finish(rt, &mut token.pass, active);
    }
    for _ in rt.forever() {}
    unreachable!()
}

// The active execution fails with this error. Only its thread may end it: another waits for ever.
fn fail<R: Wait>(rt: &R, flag: &OnceFlag, token: &mut OnceToken, error: u32) -> u32
    requires token { (v : View machine.Once) × IsOnceToken flag.now token.old v }
    requires left { 1 ≤ token.old.pass.left }
    ensures did { (v : View machine.Once) → IsOnceToken flag.now token.old v → (w : View machine.Once) × IsOnceToken flag.now token.new w × Makes executing v w (change token.old.pass.number ops.Fail (pos error) (pos 0) replies.Ok) result }
{
    if let Some(active) = token.active.take() {
        return flag.fail(rt, &mut token.pass, active, error);
    }
    for _ in rt.forever() {}
    unreachable!()
}

impl Shared for OnceFlag {
    type M = OnceMachine;

    type Token = OnceToken;

    ghost knows = { λ x k v. IsOnceToken x k v };

    ghost number = { λ k. k.pass.number };

    ghost share = { λ k. k.pass.share };

    ghost start = { λ x. cell_start kept_state x.cell };

    ghost kept = { λ k. nothing };

    ghost begun = { λ k. is_some k.active };

    ghost serves = { λ h share ask. asks_once ask.change ask.look ask.a ask.b };

    ghost as_any = { all.Once };

    fn number(token: &OnceToken) -> ThreadNo {
        token.pass.number()
    }

    fn act<R: Wait>(&self, rt: &R, token: &mut OnceToken, ask: Ask) -> Option<Either> {
        if token.pass.left() == 0 {
            return None;
        }
        match (ask.change, ask.look, ask.a, ask.b) {
            (Some(Op::Begin), Some(Op::Passive), 0, 0) => Some(begin(rt, self, token)),
            (Some(Op::Finish), None, 0, 0) => {
                Some(Either::Made(Reply::Ok, finish(rt, self, token)))
            }
            (Some(Op::Fail), None, error, 0) => {
                let Ok(error) = u32::try_from(error) else {
                    return None;
                };
                Some(Either::Made(Reply::Ok, fail(rt, self, token, error)))
            }
            _ => None,
        }
    }

    fn split(&self, first: &mut OnceToken, calls: u32) -> OnceToken {
        OnceToken {
            pass: self.split(&mut first.pass, calls),
            active: None,
        }
    }

    fn join(&self, token: &mut OnceToken, other: OnceToken) {
        self.join(&mut token.pass, other.pass);
    }

    fn meet(&self, from: &mut OnceToken, to: &mut OnceToken) {
        self.meet(&mut from.pass, &mut to.pass);
    }

    fn give_up<R: Wait>(&self, rt: &R, token: &mut OnceToken) {
        if token.pass.left() == 0 {
            return;
        }
        if let Some(active) = token.active.take() {
            self.fail(rt, &mut token.pass, active, GIVEN_UP);
        }
    }

    fn is_completing(&self, token: &OnceToken) -> bool {
        let _ = token;
        false
    }

    ghost right = { λ x k v h. record { numbered = h.pass.numbered; shared = h.pass.counted.part; started = h.pass.started; counts = h.pass.counts; only = λ w i. head_is w v (sym i.pass.views ∙ h.pass.views); known = h.pass.known } };

    ghost kind = { record { steps = λ m e. refl; shown = λ m l. refl; picked = λ m e p. p; pooled = λ m. refl; owed = λ m. refl; given = λ m e. refl; taken = λ m e. refl; lived = λ m id. refl } };
}
