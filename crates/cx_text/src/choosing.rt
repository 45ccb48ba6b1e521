//! Which rows of a table may take a line, by the first byte of a word that tells.
ghost use Rattle.std.specs.Prelude.{◌≡◌, filter};
ghost use Rattle.cx_text.specs.Words.{scenario_lines, rows_for};
ghost use Rattle.cx_text.specs.Items.{items};
ghost use Rattle.cx_text.specs.Views.{now_all, first_byte, word_at, begins, tells, rows_in};

use crate::form::{FORMS, Form};
use crate::item::{ITEM_FORMS, ItemForm};

// The forms of a scenario, by the first byte of their first words.
const FORMS_A: [Form; 8] = [
    Form::AsyncReturn,
    Form::AsyncThrow,
    Form::AddNumber,
    Form::Acquire,
    Form::ArriveAndWait,
    Form::Arrive,
    Form::ArriveAndDrop,
    Form::Another,
];

const FORMS_B: [Form; 5] = [
    Form::Barrier,
    Form::BarrierRelease,
    Form::BarrierNotifyOne,
    Form::BarrierNotifyAll,
    Form::Body,
];

const FORMS_C: [Form; 9] = [
    Form::VersionOne,
    Form::Condition,
    Form::CallbackRelease,
    Form::CallbackNotifyOne,
    Form::CallbackNotifyAll,
    Form::CallbackDeregister,
    Form::CountDown,
    Form::CallOnceReturn,
    Form::CallOnceThrow,
];

const FORMS_D: [Form; 2] = [Form::Drop, Form::Deregister];

const FORMS_E: [Form; 1] = [Form::End];

const FORMS_G: [Form; 3] = [Form::GetNumber, Form::GetFuture, Form::GetOutcome];

const FORMS_I: [Form; 1] = [Form::Invoke];

const FORMS_J: [Form; 2] = [Form::JThread, Form::Join];

const FORMS_L: [Form; 5] = [
    Form::Latch,
    Form::Lock,
    Form::LockShared,
    Form::LockAll,
    Form::Launch,
];

const FORMS_M: [Form; 2] = [Form::Mutex, Form::Main];

const FORMS_N: [Form; 2] = [Form::NotifyOne, Form::NotifyAll];

const FORMS_O: [Form; 1] = [Form::Once];

const FORMS_P: [Form; 1] = [Form::Promise];

const FORMS_R: [Form; 4] = [
    Form::Recursive,
    Form::Release,
    Form::RequestStop,
    Form::Register,
];

const FORMS_S: [Form; 11] = [
    Form::Shared,
    Form::Semaphore,
    Form::Stop,
    Form::SharedPromise,
    Form::SetNumber,
    Form::StopRequested,
    Form::StopPossible,
    Form::SetValue,
    Form::SetException,
    Form::Share,
    Form::Start,
];

const FORMS_T: [Form; 8] = [
    Form::Thread,
    Form::TaskReturn,
    Form::TaskThrow,
    Form::TryLock,
    Form::TryLockShared,
    Form::TryLockAll,
    Form::TryAcquire,
    Form::TryWait,
];

const FORMS_U: [Form; 2] = [Form::Unlock, Form::UnlockShared];

const FORMS_W: [Form; 4] = [
    Form::Wait,
    Form::WaitCondition,
    Form::WaitPredicate,
    Form::WaitStop,
];

// The changes of a record, by the first byte of their fourth words.
const CHANGES_A: [ItemForm; 4] = [
    ItemForm::ChangeNumbersAddIndexSignedSigned,
    ItemForm::ChangeSemaphoreAcquire,
    ItemForm::ChangeBarrierArriveNumberNumber,
    ItemForm::ChangeStopAnother,
];

const CHANGES_B: [ItemForm; 2] = [ItemForm::ChangeOnceBegin, ItemForm::ChangeStopBeginNumber];

const CHANGES_C: [ItemForm; 2] = [
    ItemForm::ChangeLatchCountDownNumber,
    ItemForm::ChangeBarrierComplete,
];

const CHANGES_D: [ItemForm; 6] = [
    ItemForm::ChangeBarrierDropNumber,
    ItemForm::ChangeStopDrop,
    ItemForm::ChangeStopDeregisterNumberRemoved,
    ItemForm::ChangeStopDeregisterNumberRan,
    ItemForm::ChangeStopDeregisterNumberInside,
    ItemForm::ChangeFutureDefer,
];

const CHANGES_E: [ItemForm; 1] = [ItemForm::ChangeConditionEnter];

const CHANGES_F: [ItemForm; 3] = [
    ItemForm::ChangeOnceFinish,
    ItemForm::ChangeOnceFailNumber,
    ItemForm::ChangeStopFinishNumber,
];

const CHANGES_L: [ItemForm; 2] = [ItemForm::ChangeLockLock, ItemForm::ChangeSharedLockShared];

const CHANGES_N: [ItemForm; 3] = [
    ItemForm::ChangeConditionNotifyOneNone,
    ItemForm::ChangeConditionNotifyOneAnyThread,
    ItemForm::ChangeConditionNotifyAllNumber,
];

const CHANGES_R: [ItemForm; 5] = [
    ItemForm::ChangeSemaphoreReleaseNumber,
    ItemForm::ChangeStopRequest,
    ItemForm::ChangeStopRegisterNumber,
    ItemForm::ChangeStopRegisterNowNumber,
    ItemForm::ChangeFutureRun,
];

const CHANGES_S: [ItemForm; 4] = [
    ItemForm::ChangeNumbersSetIndexSigned,
    ItemForm::ChangeFutureSetValueSigned,
    ItemForm::ChangeFutureSetExceptionNumber,
    ItemForm::ChangeFutureSetBrokenPromise,
];

const CHANGES_T: [ItemForm; 3] = [
    ItemForm::ChangeLockTryLockTrue,
    ItemForm::ChangeSharedTryLockSharedTrue,
    ItemForm::ChangeSemaphoreTryAcquireTrue,
];

const CHANGES_U: [ItemForm; 3] = [
    ItemForm::ChangeLockUnlock,
    ItemForm::ChangeSharedUnlockShared,
    ItemForm::ChangeConditionUnblock,
];

const CHANGES_W: [ItemForm; 1] = [ItemForm::ChangeConditionWithdraw];

// The looks of a record, by the first byte of their fourth words.
const LOOKS_A: [ItemForm; 3] = [
    ItemForm::LookNumbersAddIndexSignedOverflow,
    ItemForm::LookBarrierArriveNumberOverExpected,
    ItemForm::LookStopAlready,
];

const LOOKS_D: [ItemForm; 2] = [
    ItemForm::LookBarrierDropOverExpected,
    ItemForm::LookStopDrained,
];

const LOOKS_G: [ItemForm; 1] = [ItemForm::LookNumbersGetIndexSigned];

const LOOKS_L: [ItemForm; 1] = [ItemForm::LookNumbersLockMaxLevels];

const LOOKS_N: [ItemForm; 1] = [ItemForm::LookStopNeverNumber];

const LOOKS_P: [ItemForm; 1] = [ItemForm::LookOncePassive];

const LOOKS_R: [ItemForm; 4] = [
    ItemForm::LookSemaphoreReleaseNumberOver,
    ItemForm::LookFutureReadyValueSigned,
    ItemForm::LookFutureReadyExceptionNumber,
    ItemForm::LookFutureReadyBrokenPromise,
];

const LOOKS_S: [ItemForm; 4] = [
    ItemForm::LookStopStopRequestedTrue,
    ItemForm::LookStopStopRequestedFalse,
    ItemForm::LookStopStopPossibleTrue,
    ItemForm::LookStopStopPossibleFalse,
];

const LOOKS_T: [ItemForm; 5] = [
    ItemForm::LookLockTryLockFalse,
    ItemForm::LookSharedTryLockSharedFalse,
    ItemForm::LookSemaphoreTryAcquireFalse,
    ItemForm::LookLatchTryWaitTrue,
    ItemForm::LookLatchTryWaitFalse,
];

const LOOKS_W: [ItemForm; 2] = [ItemForm::LookLatchWait, ItemForm::LookBarrierWaitNumber];

// The replies of a record, by the first byte of their second words.
const REPLIES_A: [ItemForm; 3] = [
    ItemForm::ReplyAlready,
    ItemForm::ReplyNumber,
    ItemForm::ReplyThread,
];

const REPLIES_B: [ItemForm; 3] = [
    ItemForm::ReplyBrokenPromise,
    ItemForm::ReplyNumber,
    ItemForm::ReplyThread,
];

const REPLIES_D: [ItemForm; 3] = [
    ItemForm::ReplyDeferred,
    ItemForm::ReplyNumber,
    ItemForm::ReplyThread,
];

const REPLIES_E: [ItemForm; 3] = [
    ItemForm::ReplyNumber,
    ItemForm::ReplyThread,
    ItemForm::ReplyExceptionOf,
];

const REPLIES_F: [ItemForm; 4] = [
    ItemForm::ReplyFalse,
    ItemForm::ReplyFutureAlreadyRetrieved,
    ItemForm::ReplyNumber,
    ItemForm::ReplyThread,
];

const REPLIES_I: [ItemForm; 4] = [
    ItemForm::ReplyInside,
    ItemForm::ReplyInvalidArgument,
    ItemForm::ReplyNumber,
    ItemForm::ReplyThread,
];

const REPLIES_L: [ItemForm; 3] = [
    ItemForm::ReplyLaunched,
    ItemForm::ReplyNumber,
    ItemForm::ReplyThread,
];

const REPLIES_M: [ItemForm; 4] = [
    ItemForm::ReplyMaxLevels,
    ItemForm::ReplyMade,
    ItemForm::ReplyNumber,
    ItemForm::ReplyThread,
];

const REPLIES_N: [ItemForm; 8] = [
    ItemForm::ReplyNever,
    ItemForm::ReplyNotHeld,
    ItemForm::ReplyNoToken,
    ItemForm::ReplyNoThread,
    ItemForm::ReplyNone,
    ItemForm::ReplyNoState,
    ItemForm::ReplyNumber,
    ItemForm::ReplyThread,
];

const REPLIES_O: [ItemForm; 7] = [
    ItemForm::ReplyOk,
    ItemForm::ReplyOver,
    ItemForm::ReplyOverExpected,
    ItemForm::ReplyOverflow,
    ItemForm::ReplyOperationNotPermitted,
    ItemForm::ReplyNumber,
    ItemForm::ReplyThread,
];

const REPLIES_P: [ItemForm; 4] = [
    ItemForm::ReplyPassive,
    ItemForm::ReplyPromiseAlreadySatisfied,
    ItemForm::ReplyNumber,
    ItemForm::ReplyThread,
];

const REPLIES_Q: [ItemForm; 3] = [
    ItemForm::ReplyQueued,
    ItemForm::ReplyNumber,
    ItemForm::ReplyThread,
];

const REPLIES_R: [ItemForm; 6] = [
    ItemForm::ReplyRan,
    ItemForm::ReplyRemoved,
    ItemForm::ReplyReturned,
    ItemForm::ReplyResourceDeadlockWouldOccur,
    ItemForm::ReplyNumber,
    ItemForm::ReplyThread,
];

const REPLIES_S: [ItemForm; 3] = [
    ItemForm::ReplySpent,
    ItemForm::ReplyNumber,
    ItemForm::ReplyThread,
];

const REPLIES_T: [ItemForm; 4] = [
    ItemForm::ReplyTrue,
    ItemForm::ReplyNumber,
    ItemForm::ReplyThread,
    ItemForm::ReplyThrewOf,
];

const REPLIES_V: [ItemForm; 3] = [
    ItemForm::ReplyNumber,
    ItemForm::ReplyThread,
    ItemForm::ReplyValueOf,
];

// The controls of a record.
const CONTROLS: [ItemForm; 5] = [
    ItemForm::ControlStartOk,
    ItemForm::ControlStartNoThread,
    ItemForm::ControlJoin,
    ItemForm::ControlLaunchOk,
    ItemForm::ControlLaunchNoThread,
];

// The first byte of a word, and 0 where there is none.
fn first_byte(word: &[u8]) -> u8
    ensures { result ≡ first_byte word.now }
{
    match word {
        [] => 0,
        [byte, ..] => *byte,
    }
}

// A word by its place, and an empty one where there is none.
fn word_at<'a>(words: &[&'a [u8]], place: usize) -> &'a [u8]
    ensures { result.now ≡ word_at place (now_all words.now) }
{
    match words.get(place) {
        None => &[],
        Some(word) => word,
    }
}

// The forms whose first words begin with this byte. All where none begins with it.
fn forms_by(byte: u8) -> &'static [Form]
    ensures { filter (begins scenario_lines byte) result.now ≡ filter (begins scenario_lines byte) scenario_lines.forms }
{
    match byte {
        b'a' => &FORMS_A,
        b'b' => &FORMS_B,
        b'c' => &FORMS_C,
        b'd' => &FORMS_D,
        b'e' => &FORMS_E,
        b'g' => &FORMS_G,
        b'i' => &FORMS_I,
        b'j' => &FORMS_J,
        b'l' => &FORMS_L,
        b'm' => &FORMS_M,
        b'n' => &FORMS_N,
        b'o' => &FORMS_O,
        b'p' => &FORMS_P,
        b'r' => &FORMS_R,
        b's' => &FORMS_S,
        b't' => &FORMS_T,
        b'u' => &FORMS_U,
        b'w' => &FORMS_W,
        _ => &FORMS,
    }
}

// The changes whose fourth words begin with this byte. All where none begins with it.
fn changes_by(byte: u8) -> &'static [ItemForm]
    ensures { filter (tells items 43 2 byte) result.now ≡ filter (tells items 43 2 byte) items.forms }
{
    match byte {
        b'a' => &CHANGES_A,
        b'b' => &CHANGES_B,
        b'c' => &CHANGES_C,
        b'd' => &CHANGES_D,
        b'e' => &CHANGES_E,
        b'f' => &CHANGES_F,
        b'l' => &CHANGES_L,
        b'n' => &CHANGES_N,
        b'r' => &CHANGES_R,
        b's' => &CHANGES_S,
        b't' => &CHANGES_T,
        b'u' => &CHANGES_U,
        b'w' => &CHANGES_W,
        _ => &ITEM_FORMS,
    }
}

// The looks whose fourth words begin with this byte. All where none begins with it.
fn looks_by(byte: u8) -> &'static [ItemForm]
    ensures { filter (tells items 63 2 byte) result.now ≡ filter (tells items 63 2 byte) items.forms }
{
    match byte {
        b'a' => &LOOKS_A,
        b'd' => &LOOKS_D,
        b'g' => &LOOKS_G,
        b'l' => &LOOKS_L,
        b'n' => &LOOKS_N,
        b'p' => &LOOKS_P,
        b'r' => &LOOKS_R,
        b's' => &LOOKS_S,
        b't' => &LOOKS_T,
        b'w' => &LOOKS_W,
        _ => &ITEM_FORMS,
    }
}

// The replies whose second words begin with this byte. All where none begins with it.
fn replies_by(byte: u8) -> &'static [ItemForm]
    ensures { filter (tells items 61 0 byte) result.now ≡ filter (tells items 61 0 byte) items.forms }
{
    match byte {
        b'a' => &REPLIES_A,
        b'b' => &REPLIES_B,
        b'd' => &REPLIES_D,
        b'e' => &REPLIES_E,
        b'f' => &REPLIES_F,
        b'i' => &REPLIES_I,
        b'l' => &REPLIES_L,
        b'm' => &REPLIES_M,
        b'n' => &REPLIES_N,
        b'o' => &REPLIES_O,
        b'p' => &REPLIES_P,
        b'q' => &REPLIES_Q,
        b'r' => &REPLIES_R,
        b's' => &REPLIES_S,
        b't' => &REPLIES_T,
        b'v' => &REPLIES_V,
        _ => &ITEM_FORMS,
    }
}

// The controls of a record.
fn controls() -> &'static [ItemForm]
    ensures { filter (begins items 42) result.now ≡ filter (begins items 42) items.forms }
{
    &CONTROLS
}

// All forms of a record's lines.
fn all_item_forms() -> &'static [ItemForm]
    ensures { result.now ≡ items.forms }
{
    &ITEM_FORMS
}

/// Forms of a scenario's lines, among them all that lines with these words may have.
pub(crate) fn forms_for(head: &[u8], after: &[&[u8]]) -> &'static [Form]
    ensures { rows_in scenario_lines 1 head.now (now_all after.now) result.now ≡ rows_for scenario_lines 1 head.now (now_all after.now) }
{
    let _ = after;
    forms_by(first_byte(head))
}

/// Forms of a record's lines, among them all that lines with these words may have.
pub(crate) fn item_forms_for(head: &[u8], after: &[&[u8]]) -> &'static [ItemForm]
    ensures { rows_in items 1 head.now (now_all after.now) result.now ≡ rows_for items 1 head.now (now_all after.now) }
{
    match first_byte(head) {
        b'+' => changes_by(first_byte(word_at(after, 2))),
        b'?' => looks_by(first_byte(word_at(after, 2))),
        b'=' => replies_by(first_byte(word_at(after, 0))),
        b'*' => controls(),
        _ => all_item_forms(),
    }
}
