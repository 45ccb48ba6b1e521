ghost use Rattle.std.specs.Prelude.{◌≡◌};
ghost use Rattle.cx_machine.specs.Words.{small_of};
ghost use Rattle.cx_record.specs.Printed as rows;

use cx_items::Control;
use cx_machine::{Kind, Op};
use cx_names::{Outcome, Reply};
use cx_text::ItemForm;

/// The row of a change on a mutex.
fn mutex_change(op: Op, reply: Reply) -> Option<ItemForm>
    ensures { result ≡ rows.mutex_change op reply }
{
    match (op, reply) {
        (Op::Lock, Reply::Ok) => Some(ItemForm::ChangeLockLock),
        (Op::TryLock, Reply::True) => Some(ItemForm::ChangeLockTryLockTrue),
        (Op::Unlock, Reply::Ok) => Some(ItemForm::ChangeLockUnlock),
        (Op::Set, Reply::Ok) => Some(ItemForm::ChangeNumbersSetIndexSigned),
        (Op::Add, Reply::Number(_)) => Some(ItemForm::ChangeNumbersAddIndexSignedSigned),
        _ => None,
    }
}

/// The row of a change on a shared mutex.
fn shared_change(op: Op, reply: Reply) -> Option<ItemForm>
    ensures { result ≡ rows.shared_change op reply }
{
    match (op, reply) {
        (Op::Lock, Reply::Ok) => Some(ItemForm::ChangeLockLock),
        (Op::TryLock, Reply::True) => Some(ItemForm::ChangeLockTryLockTrue),
        (Op::Unlock, Reply::Ok) => Some(ItemForm::ChangeLockUnlock),
        (Op::LockShared, Reply::Ok) => Some(ItemForm::ChangeSharedLockShared),
        (Op::TryLockShared, Reply::True) => Some(ItemForm::ChangeSharedTryLockSharedTrue),
        (Op::UnlockShared, Reply::Ok) => Some(ItemForm::ChangeSharedUnlockShared),
        _ => None,
    }
}

/// The row of a change on a semaphore.
fn semaphore_change(op: Op, reply: Reply) -> Option<ItemForm>
    ensures { result ≡ rows.semaphore_change op reply }
{
    match (op, reply) {
        (Op::Release, Reply::Ok) => Some(ItemForm::ChangeSemaphoreReleaseNumber),
        (Op::Acquire, Reply::Ok) => Some(ItemForm::ChangeSemaphoreAcquire),
        (Op::TryAcquire, Reply::True) => Some(ItemForm::ChangeSemaphoreTryAcquireTrue),
        _ => None,
    }
}

/// The row of a change on a latch.
fn latch_change(op: Op, reply: Reply) -> Option<ItemForm>
    ensures { result ≡ rows.latch_change op reply }
{
    match (op, reply) {
        (Op::CountDown, Reply::Ok) => Some(ItemForm::ChangeLatchCountDownNumber),
        _ => None,
    }
}

/// The row of a change on a barrier.
fn barrier_change(op: Op, reply: Reply) -> Option<ItemForm>
    ensures { result ≡ rows.barrier_change op reply }
{
    match (op, reply) {
        (Op::Arrive, Reply::Number(_)) => Some(ItemForm::ChangeBarrierArriveNumberNumber),
        (Op::Drop, Reply::Number(_)) => Some(ItemForm::ChangeBarrierDropNumber),
        (Op::Complete, Reply::Ok) => Some(ItemForm::ChangeBarrierComplete),
        _ => None,
    }
}

/// The row of a change on a once flag.
fn once_change(op: Op, reply: Reply) -> Option<ItemForm>
    ensures { result ≡ rows.once_change op reply }
{
    match (op, reply) {
        (Op::Begin, Reply::Ok) => Some(ItemForm::ChangeOnceBegin),
        (Op::Finish, Reply::Ok) => Some(ItemForm::ChangeOnceFinish),
        (Op::Fail, Reply::Ok) => Some(ItemForm::ChangeOnceFailNumber),
        _ => None,
    }
}

/// The row of a change on a condition variable.
fn condition_change(op: Op, reply: Reply) -> Option<ItemForm>
    ensures { result ≡ rows.condition_change op reply }
{
    match (op, reply) {
        (Op::Enter, Reply::Ok) => Some(ItemForm::ChangeConditionEnter),
        (Op::NotifyOne, Reply::Nobody) => Some(ItemForm::ChangeConditionNotifyOneNone),
        (Op::NotifyOne, Reply::Thread(_)) => Some(ItemForm::ChangeConditionNotifyOneAnyThread),
        (Op::NotifyAll, Reply::Number(_)) => Some(ItemForm::ChangeConditionNotifyAllNumber),
        (Op::Unblock, Reply::Ok) => Some(ItemForm::ChangeConditionUnblock),
        (Op::Withdraw, Reply::Ok) => Some(ItemForm::ChangeConditionWithdraw),
        _ => None,
    }
}

/// The row of a change on a stop state.
fn stop_change(op: Op, reply: Reply) -> Option<ItemForm>
    ensures { result ≡ rows.stop_change op reply }
{
    match (op, reply) {
        (Op::Request, Reply::Ok) => Some(ItemForm::ChangeStopRequest),
        (Op::Another, Reply::Ok) => Some(ItemForm::ChangeStopAnother),
        (Op::Drop, Reply::Ok) => Some(ItemForm::ChangeStopDrop),
        (Op::Register, Reply::Ok) => Some(ItemForm::ChangeStopRegisterNumber),
        (Op::RegisterNow, Reply::Ok) => Some(ItemForm::ChangeStopRegisterNowNumber),
        (Op::Begin, Reply::Ok) => Some(ItemForm::ChangeStopBeginNumber),
        (Op::Finish, Reply::Ok) => Some(ItemForm::ChangeStopFinishNumber),
        (Op::Deregister, Reply::Removed) => Some(ItemForm::ChangeStopDeregisterNumberRemoved),
        (Op::Deregister, Reply::Ran) => Some(ItemForm::ChangeStopDeregisterNumberRan),
        (Op::Deregister, Reply::Inside) => Some(ItemForm::ChangeStopDeregisterNumberInside),
        _ => None,
    }
}

/// The row of a look at a mutex.
fn mutex_look(op: Op, reply: Reply) -> Option<ItemForm>
    ensures { result ≡ rows.mutex_look op reply }
{
    match (op, reply) {
        (Op::TryLock, Reply::False) => Some(ItemForm::LookLockTryLockFalse),
        (Op::Lock, Reply::MaxLevels) => Some(ItemForm::LookNumbersLockMaxLevels),
        (Op::Get, Reply::Number(_)) => Some(ItemForm::LookNumbersGetIndexSigned),
        (Op::Add, Reply::Overflow) => Some(ItemForm::LookNumbersAddIndexSignedOverflow),
        _ => None,
    }
}

/// The row of a look at a shared mutex.
fn shared_look(op: Op, reply: Reply) -> Option<ItemForm>
    ensures { result ≡ rows.shared_look op reply }
{
    match (op, reply) {
        (Op::TryLock, Reply::False) => Some(ItemForm::LookLockTryLockFalse),
        (Op::TryLockShared, Reply::False) => Some(ItemForm::LookSharedTryLockSharedFalse),
        _ => None,
    }
}

/// The row of a look at a semaphore.
fn semaphore_look(op: Op, reply: Reply) -> Option<ItemForm>
    ensures { result ≡ rows.semaphore_look op reply }
{
    match (op, reply) {
        (Op::Release, Reply::Over) => Some(ItemForm::LookSemaphoreReleaseNumberOver),
        (Op::TryAcquire, Reply::False) => Some(ItemForm::LookSemaphoreTryAcquireFalse),
        _ => None,
    }
}

/// The row of a look at a latch.
fn latch_look(op: Op, reply: Reply) -> Option<ItemForm>
    ensures { result ≡ rows.latch_look op reply }
{
    match (op, reply) {
        (Op::Wait, Reply::Ok) => Some(ItemForm::LookLatchWait),
        (Op::TryWait, Reply::True) => Some(ItemForm::LookLatchTryWaitTrue),
        (Op::TryWait, Reply::False) => Some(ItemForm::LookLatchTryWaitFalse),
        _ => None,
    }
}

/// The row of a look at a barrier.
fn barrier_look(op: Op, reply: Reply) -> Option<ItemForm>
    ensures { result ≡ rows.barrier_look op reply }
{
    match (op, reply) {
        (Op::Arrive, Reply::OverExpected) => Some(ItemForm::LookBarrierArriveNumberOverExpected),
        (Op::Drop, Reply::OverExpected) => Some(ItemForm::LookBarrierDropOverExpected),
        (Op::Wait, Reply::Ok) => Some(ItemForm::LookBarrierWaitNumber),
        _ => None,
    }
}

/// The row of a look at a once flag.
fn once_look(op: Op, reply: Reply) -> Option<ItemForm>
    ensures { result ≡ rows.once_look op reply }
{
    match (op, reply) {
        (Op::Passive, Reply::Ok) => Some(ItemForm::LookOncePassive),
        _ => None,
    }
}

/// The row of a look at a stop state.
fn stop_look(op: Op, reply: Reply) -> Option<ItemForm>
    ensures { result ≡ rows.stop_look op reply }
{
    match (op, reply) {
        (Op::Already, Reply::Ok) => Some(ItemForm::LookStopAlready),
        (Op::StopRequested, Reply::True) => Some(ItemForm::LookStopStopRequestedTrue),
        (Op::StopRequested, Reply::False) => Some(ItemForm::LookStopStopRequestedFalse),
        (Op::StopPossible, Reply::True) => Some(ItemForm::LookStopStopPossibleTrue),
        (Op::StopPossible, Reply::False) => Some(ItemForm::LookStopStopPossibleFalse),
        (Op::Never, Reply::Ok) => Some(ItemForm::LookStopNeverNumber),
        (Op::Drained, Reply::Ok) => Some(ItemForm::LookStopDrained),
        _ => None,
    }
}

/// The row of a look at a future.
fn future_look(op: Op, reply: Reply) -> Option<ItemForm>
    ensures { result ≡ rows.future_look op reply }
{
    match (op, reply) {
        (Op::Ready, Reply::Outcome(Outcome::Value(_))) => Some(
            ItemForm::LookFutureReadyValueSigned,
        ),
        (Op::Ready, Reply::Outcome(Outcome::Exception(_))) => Some(
            ItemForm::LookFutureReadyExceptionNumber,
        ),
        (Op::Ready, Reply::Outcome(Outcome::Broken)) => Some(
            ItemForm::LookFutureReadyBrokenPromise,
        ),
        _ => None,
    }
}

/// The row of `set OUTCOME`, by the sort of the outcome.
fn outcome_change(sort: i64) -> Option<ItemForm>
    ensures { result ≡ rows.set_form (small_of sort) }
{
    match sort {
        0 => Some(ItemForm::ChangeFutureSetValueSigned),
        1 => Some(ItemForm::ChangeFutureSetExceptionNumber),
        2 => Some(ItemForm::ChangeFutureSetBrokenPromise),
        _ => None,
    }
}

/// The row of a change on a future.
fn future_change(op: Op, sort: i64) -> Option<ItemForm>
    ensures { result ≡ rows.future_change op (small_of sort) }
{
    match op {
        Op::Defer => Some(ItemForm::ChangeFutureDefer),
        Op::Run => Some(ItemForm::ChangeFutureRun),
        Op::Set => outcome_change(sort),
        _ => None,
    }
}

/// The row of a change on an object of this kind; none where the words are not those of the kind.
pub(crate) fn change_form(kind: Kind, op: Op, a: i64, reply: Reply) -> Option<ItemForm>
    ensures { result ≡ rows.change_form kind op a reply }
{
    match kind {
        Kind::Mutex { .. } => mutex_change(op, reply),
        Kind::Shared => shared_change(op, reply),
        Kind::Semaphore { .. } => semaphore_change(op, reply),
        Kind::Latch { .. } => latch_change(op, reply),
        Kind::Barrier { .. } => barrier_change(op, reply),
        Kind::Once => once_change(op, reply),
        Kind::Condition => condition_change(op, reply),
        Kind::Stop { .. } => stop_change(op, reply),
        Kind::Future => future_change(op, a),
    }
}

/// The row of a look at an object of this kind; none where the words are not those of the kind.
pub(crate) fn look_form(kind: Kind, op: Op, reply: Reply) -> Option<ItemForm>
    ensures { result ≡ rows.look_form kind op reply }
{
    match kind {
        Kind::Mutex { .. } => mutex_look(op, reply),
        Kind::Shared => shared_look(op, reply),
        Kind::Semaphore { .. } => semaphore_look(op, reply),
        Kind::Latch { .. } => latch_look(op, reply),
        Kind::Barrier { .. } => barrier_look(op, reply),
        Kind::Once => once_look(op, reply),
        Kind::Condition => None,
        Kind::Stop { .. } => stop_look(op, reply),
        Kind::Future => future_look(op, reply),
    }
}

/// The row of a control.
pub(crate) fn control_form(control: Control) -> ItemForm
    ensures { result ≡ rows.control_form control }
{
    match control {
        Control::Start(_, true) => ItemForm::ControlStartOk,
        Control::Start(_, false) => ItemForm::ControlStartNoThread,
        Control::Launch(_, true) => ItemForm::ControlLaunchOk,
        Control::Launch(_, false) => ItemForm::ControlLaunchNoThread,
        Control::Join(_) => ItemForm::ControlJoin,
    }
}

/// The row of a reply.
pub(crate) fn reply_form(reply: Reply) -> ItemForm
    ensures { result ≡ rows.reply_form reply }
{
    match reply {
        Reply::Ok => ItemForm::ReplyOk,
        Reply::True => ItemForm::ReplyTrue,
        Reply::False => ItemForm::ReplyFalse,
        Reply::Over => ItemForm::ReplyOver,
        Reply::OverExpected => ItemForm::ReplyOverExpected,
        Reply::MaxLevels => ItemForm::ReplyMaxLevels,
        Reply::Overflow => ItemForm::ReplyOverflow,
        Reply::Made => ItemForm::ReplyMade,
        Reply::Already => ItemForm::ReplyAlready,
        Reply::Queued => ItemForm::ReplyQueued,
        Reply::Ran => ItemForm::ReplyRan,
        Reply::Never => ItemForm::ReplyNever,
        Reply::Removed => ItemForm::ReplyRemoved,
        Reply::Inside => ItemForm::ReplyInside,
        Reply::NotHeld => ItemForm::ReplyNotHeld,
        Reply::Returned => ItemForm::ReplyReturned,
        Reply::Passive => ItemForm::ReplyPassive,
        Reply::NoToken => ItemForm::ReplyNoToken,
        Reply::Spent => ItemForm::ReplySpent,
        Reply::NoThread => ItemForm::ReplyNoThread,
        Reply::Launched => ItemForm::ReplyLaunched,
        Reply::Deferred => ItemForm::ReplyDeferred,
        Reply::Nobody => ItemForm::ReplyNone,
        Reply::NoState => ItemForm::ReplyNoState,
        Reply::PromiseAlreadySatisfied => ItemForm::ReplyPromiseAlreadySatisfied,
        Reply::FutureAlreadyRetrieved => ItemForm::ReplyFutureAlreadyRetrieved,
        Reply::OperationNotPermitted => ItemForm::ReplyOperationNotPermitted,
        Reply::ResourceDeadlockWouldOccur => ItemForm::ReplyResourceDeadlockWouldOccur,
        Reply::InvalidArgument => ItemForm::ReplyInvalidArgument,
        Reply::Number(_) => ItemForm::ReplyNumber,
        Reply::Thread(_) => ItemForm::ReplyThread,
        Reply::Threw(_) => ItemForm::ReplyThrewOf,
        Reply::Outcome(Outcome::Value(_)) => ItemForm::ReplyValueOf,
        Reply::Outcome(Outcome::Exception(_)) => ItemForm::ReplyExceptionOf,
        Reply::Outcome(Outcome::Broken) => ItemForm::ReplyBrokenPromise,
    }
}
