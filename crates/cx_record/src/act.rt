ghost use Rattle.std.specs.Prelude.{◌≡◌, map, pos};
ghost use Rattle.cx_text.specs.Views.{seen};
ghost use Rattle.cx_record.specs.ItemLines as lines;
ghost use Rattle.cx_record.specs.RosterSeen.{roster_seen, line_seen};

use crate::roster::Roster;
use crate::values::{signed_at, small_at};
use cx_items::Control;
use cx_machine::Op;
use cx_names::{Outcome, Reply};
use cx_text::{ItemForm, Value};

/// The words of an act: its word, its numbers and its reply. A number that isn't used is 0.
#[derive(Clone, Copy)]
pub(crate) struct Words {
    pub op: Op,
    pub a: i64,
    pub b: i64,
    pub reply: Reply,
}

/// Words without numbers.
fn bare(op: Op, reply: Reply) -> Option<Words>
    ensures { result ≡ lines.bare op reply }
{
    Some(Words {
        op,
        a: 0,
        b: 0,
        reply,
    })
}

/// Words with one number.
fn with_one(op: Op, a: u32, reply: Reply) -> Option<Words>
    ensures { result ≡ lines.with_one op a reply }
{
    Some(Words {
        op,
        a: i64::from(a),
        b: 0,
        reply,
    })
}

/// Words with two numbers.
fn with_two(op: Op, a: u32, b: i64, reply: Reply) -> Option<Words>
    ensures { result ≡ lines.with_two op a b reply }
{
    Some(Words {
        op,
        a: i64::from(a),
        b,
        reply,
    })
}

/// What a change says.
pub(crate) fn change_words(
    roster: &Roster<'_>,
    form: ItemForm,
    values: &[Value<'_>],
) -> Option<Words>
    ensures { result ≡ lines.change_words (roster_seen roster.now) (line_seen form values.now) form }
{
    match form {
        ItemForm::ChangeLockLock => bare(Op::Lock, Reply::Ok),
        ItemForm::ChangeLockTryLockTrue => bare(Op::TryLock, Reply::True),
        ItemForm::ChangeLockUnlock => bare(Op::Unlock, Reply::Ok),
        ItemForm::ChangeNumbersSetIndexSigned => with_two(
            Op::Set,
            small_at(values, 3),
            signed_at(values, 4),
            Reply::Ok,
        ),
        ItemForm::ChangeNumbersAddIndexSignedSigned => with_two(
            Op::Add,
            small_at(values, 3),
            signed_at(values, 4),
            Reply::Number(signed_at(values, 5)),
        ),
        ItemForm::ChangeSharedLockShared => bare(Op::LockShared, Reply::Ok),
        ItemForm::ChangeSharedTryLockSharedTrue => bare(Op::TryLockShared, Reply::True),
        ItemForm::ChangeSharedUnlockShared => bare(Op::UnlockShared, Reply::Ok),
        ItemForm::ChangeSemaphoreReleaseNumber => with_one(
            Op::Release,
            small_at(values, 3),
            Reply::Ok,
        ),
        ItemForm::ChangeSemaphoreAcquire => bare(Op::Acquire, Reply::Ok),
        ItemForm::ChangeSemaphoreTryAcquireTrue => bare(Op::TryAcquire, Reply::True),
        ItemForm::ChangeLatchCountDownNumber => with_one(
            Op::CountDown,
            small_at(values, 3),
            Reply::Ok,
        ),
        ItemForm::ChangeBarrierArriveNumberNumber => with_one(
            Op::Arrive,
            small_at(values, 3),
            Reply::Number(i64::from(small_at(values, 4))),
        ),
        ItemForm::ChangeBarrierDropNumber => bare(
            Op::Drop,
            Reply::Number(i64::from(small_at(values, 3))),
        ),
        ItemForm::ChangeBarrierComplete => bare(Op::Complete, Reply::Ok),
        ItemForm::ChangeOnceBegin => bare(Op::Begin, Reply::Ok),
        ItemForm::ChangeOnceFinish => bare(Op::Finish, Reply::Ok),
        ItemForm::ChangeOnceFailNumber => with_one(Op::Fail, small_at(values, 3), Reply::Ok),
        ItemForm::ChangeConditionEnter => bare(Op::Enter, Reply::Ok),
        ItemForm::ChangeConditionNotifyOneNone => bare(Op::NotifyOne, Reply::Nobody),
        ItemForm::ChangeConditionNotifyOneAnyThread => bare(
            Op::NotifyOne,
            Reply::Thread(roster.thread_at(values, 3)),
        ),
        ItemForm::ChangeConditionNotifyAllNumber => bare(
            Op::NotifyAll,
            Reply::Number(i64::from(small_at(values, 3))),
        ),
        ItemForm::ChangeConditionUnblock => bare(Op::Unblock, Reply::Ok),
        ItemForm::ChangeConditionWithdraw => bare(Op::Withdraw, Reply::Ok),
        ItemForm::ChangeStopRequest => bare(Op::Request, Reply::Ok),
        ItemForm::ChangeStopAnother => bare(Op::Another, Reply::Ok),
        ItemForm::ChangeStopDrop => bare(Op::Drop, Reply::Ok),
        ItemForm::ChangeStopRegisterNumber => with_one(
            Op::Register,
            small_at(values, 3),
            Reply::Ok,
        ),
        ItemForm::ChangeStopRegisterNowNumber => with_one(
            Op::RegisterNow,
            small_at(values, 3),
            Reply::Ok,
        ),
        ItemForm::ChangeStopBeginNumber => with_one(Op::Begin, small_at(values, 3), Reply::Ok),
        ItemForm::ChangeStopFinishNumber => with_one(Op::Finish, small_at(values, 3), Reply::Ok),
        ItemForm::ChangeStopDeregisterNumberRemoved => with_one(
            Op::Deregister,
            small_at(values, 3),
            Reply::Removed,
        ),
        ItemForm::ChangeStopDeregisterNumberRan => with_one(
            Op::Deregister,
            small_at(values, 3),
            Reply::Ran,
        ),
        ItemForm::ChangeStopDeregisterNumberInside => with_one(
            Op::Deregister,
            small_at(values, 3),
            Reply::Inside,
        ),
        ItemForm::ChangeFutureDefer => bare(Op::Defer, Reply::Ok),
        ItemForm::ChangeFutureRun => bare(Op::Run, Reply::Ok),
        ItemForm::ChangeFutureSetValueSigned => with_two(
            Op::Set,
            0,
            signed_at(values, 4),
            Reply::Ok,
        ),
        ItemForm::ChangeFutureSetExceptionNumber => with_two(
            Op::Set,
            1,
            i64::from(small_at(values, 4)),
            Reply::Ok,
        ),
        ItemForm::ChangeFutureSetBrokenPromise => with_two(Op::Set, 2, 0, Reply::Ok),
        _ => None,
    }
}

/// What a look says.
pub(crate) fn look_words(form: ItemForm, values: &[Value<'_>]) -> Option<Words>
    ensures { result ≡ lines.look_words (line_seen form values.now) form }
{
    match form {
        ItemForm::LookLockTryLockFalse => bare(Op::TryLock, Reply::False),
        ItemForm::LookNumbersLockMaxLevels => bare(Op::Lock, Reply::MaxLevels),
        ItemForm::LookNumbersGetIndexSigned => with_one(
            Op::Get,
            small_at(values, 3),
            Reply::Number(signed_at(values, 4)),
        ),
        ItemForm::LookNumbersAddIndexSignedOverflow => with_two(
            Op::Add,
            small_at(values, 3),
            signed_at(values, 4),
            Reply::Overflow,
        ),
        ItemForm::LookSharedTryLockSharedFalse => bare(Op::TryLockShared, Reply::False),
        ItemForm::LookSemaphoreReleaseNumberOver => with_one(
            Op::Release,
            small_at(values, 3),
            Reply::Over,
        ),
        ItemForm::LookSemaphoreTryAcquireFalse => bare(Op::TryAcquire, Reply::False),
        ItemForm::LookLatchWait => bare(Op::Wait, Reply::Ok),
        ItemForm::LookLatchTryWaitTrue => bare(Op::TryWait, Reply::True),
        ItemForm::LookLatchTryWaitFalse => bare(Op::TryWait, Reply::False),
        ItemForm::LookBarrierArriveNumberOverExpected => with_one(
            Op::Arrive,
            small_at(values, 3),
            Reply::OverExpected,
        ),
        ItemForm::LookBarrierDropOverExpected => bare(Op::Drop, Reply::OverExpected),
        ItemForm::LookBarrierWaitNumber => with_one(Op::Wait, small_at(values, 3), Reply::Ok),
        ItemForm::LookOncePassive => bare(Op::Passive, Reply::Ok),
        ItemForm::LookStopAlready => bare(Op::Already, Reply::Ok),
        ItemForm::LookStopStopRequestedTrue => bare(Op::StopRequested, Reply::True),
        ItemForm::LookStopStopRequestedFalse => bare(Op::StopRequested, Reply::False),
        ItemForm::LookStopStopPossibleTrue => bare(Op::StopPossible, Reply::True),
        ItemForm::LookStopStopPossibleFalse => bare(Op::StopPossible, Reply::False),
        ItemForm::LookStopNeverNumber => with_one(Op::Never, small_at(values, 3), Reply::Ok),
        ItemForm::LookStopDrained => bare(Op::Drained, Reply::Ok),
        ItemForm::LookFutureReadyValueSigned => bare(
            Op::Ready,
            Reply::Outcome(Outcome::Value(signed_at(values, 4))),
        ),
        ItemForm::LookFutureReadyExceptionNumber => bare(
            Op::Ready,
            Reply::Outcome(Outcome::Exception(small_at(values, 4))),
        ),
        ItemForm::LookFutureReadyBrokenPromise => bare(Op::Ready, Reply::Outcome(Outcome::Broken)),
        _ => None,
    }
}

/// What a control says.
pub(crate) fn control_said(
    roster: &Roster<'_>,
    form: ItemForm,
    values: &[Value<'_>],
) -> Option<Control>
    ensures { result ≡ lines.control_said (roster_seen roster.now) (line_seen form values.now) form }
{
    match form {
        ItemForm::ControlStartOk => Some(Control::Start(roster.thread_at(values, 1), true)),
        ItemForm::ControlStartNoThread => Some(Control::Start(roster.thread_at(values, 1), false)),
        ItemForm::ControlLaunchOk => Some(Control::Launch(roster.thread_at(values, 1), true)),
        ItemForm::ControlLaunchNoThread => Some(Control::Launch(
            roster.thread_at(values, 1),
            false,
        )),
        ItemForm::ControlJoin => Some(Control::Join(roster.thread_at(values, 1))),
        _ => None,
    }
}

/// What a reply says.
pub(crate) fn reply_said(roster: &Roster<'_>, form: ItemForm, values: &[Value<'_>]) -> Option<Reply>
    ensures { result ≡ lines.reply_said (roster_seen roster.now) (line_seen form values.now) form }
{
    match form {
        ItemForm::ReplyOk => Some(Reply::Ok),
        ItemForm::ReplyTrue => Some(Reply::True),
        ItemForm::ReplyFalse => Some(Reply::False),
        ItemForm::ReplyOver => Some(Reply::Over),
        ItemForm::ReplyOverExpected => Some(Reply::OverExpected),
        ItemForm::ReplyMaxLevels => Some(Reply::MaxLevels),
        ItemForm::ReplyOverflow => Some(Reply::Overflow),
        ItemForm::ReplyMade => Some(Reply::Made),
        ItemForm::ReplyAlready => Some(Reply::Already),
        ItemForm::ReplyQueued => Some(Reply::Queued),
        ItemForm::ReplyRan => Some(Reply::Ran),
        ItemForm::ReplyNever => Some(Reply::Never),
        ItemForm::ReplyRemoved => Some(Reply::Removed),
        ItemForm::ReplyInside => Some(Reply::Inside),
        ItemForm::ReplyNotHeld => Some(Reply::NotHeld),
        ItemForm::ReplyReturned => Some(Reply::Returned),
        ItemForm::ReplyPassive => Some(Reply::Passive),
        ItemForm::ReplyNoToken => Some(Reply::NoToken),
        ItemForm::ReplySpent => Some(Reply::Spent),
        ItemForm::ReplyNoThread => Some(Reply::NoThread),
        ItemForm::ReplyLaunched => Some(Reply::Launched),
        ItemForm::ReplyDeferred => Some(Reply::Deferred),
        ItemForm::ReplyNone => Some(Reply::Nobody),
        ItemForm::ReplyNoState => Some(Reply::NoState),
        ItemForm::ReplyPromiseAlreadySatisfied => Some(Reply::PromiseAlreadySatisfied),
        ItemForm::ReplyFutureAlreadyRetrieved => Some(Reply::FutureAlreadyRetrieved),
        ItemForm::ReplyBrokenPromise => Some(Reply::Outcome(Outcome::Broken)),
        ItemForm::ReplyOperationNotPermitted => Some(Reply::OperationNotPermitted),
        ItemForm::ReplyResourceDeadlockWouldOccur => Some(Reply::ResourceDeadlockWouldOccur),
        ItemForm::ReplyInvalidArgument => Some(Reply::InvalidArgument),
        ItemForm::ReplyNumber => Some(Reply::Number(signed_at(values, 0))),
        ItemForm::ReplyThread => Some(Reply::Thread(roster.thread_at(values, 0))),
        ItemForm::ReplyThrewOf => Some(Reply::Threw(small_at(values, 1))),
        ItemForm::ReplyValueOf => Some(Reply::Outcome(Outcome::Value(signed_at(values, 1)))),
        ItemForm::ReplyExceptionOf => Some(Reply::Outcome(Outcome::Exception(small_at(values, 1)))),
        _ => None,
    }
}
