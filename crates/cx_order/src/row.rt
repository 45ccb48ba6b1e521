ghost use Rattle.std.specs.Prelude.{◌≡◌, filter};
ghost use Rattle.cx_order.specs.Table.{given, taken_by_change, taken_by_look, number_of};
ghost use Rattle.cx_order.specs.declared.row.TheConstants.{ROWS as ALL};

use cx_machine::{Kind, Op};
use cx_names::Reply;

/// The rows of the table of synchronization edges, each by the change on its left.
#[derive(Clone, Copy)]
pub enum Row {
    /// An `unlock`, to each later lock of the same mutex.
    Unlock,
    /// An `unlock_shared`, to each later exclusive lock of the same mutex.
    UnlockShared,
    /// A `release`, to each later acquisition from the same semaphore.
    Release,
    /// A `count_down`, to each later look that the latch is open.
    CountDown,
    /// An arrival at a barrier, to the last arrival of its phase, whose thread completes the phase.
    Arrival,
    /// A `complete`, to each look that its phase or a later one is over.
    Completion,
    /// A `fail` of a once flag, to each later `begin`.
    Failure,
    /// A `finish` of a once flag, to each later look that it's done.
    Finish,
    /// A `request` of a stop, to each later act that sees it.
    Request,
    /// The `register` of a callback, to its `begin`.
    Registration,
    /// The `finish` of a callback, to the `deregister` that finds that it ran.
    CallbackEnd,
    /// The `set` of a future, to each later look that it's ready.
    Outcome,
}

/// All rows, in the order of the table.
pub const ROWS: [Row; 12] = [
    Row::Unlock,
    Row::UnlockShared,
    Row::Release,
    Row::CountDown,
    Row::Arrival,
    Row::Completion,
    Row::Failure,
    Row::Finish,
    Row::Request,
    Row::Registration,
    Row::CallbackEnd,
    Row::Outcome,
];

impl Row {
    /// The number of the row in the table, from 0.
    pub fn number(self) -> u64
        ensures { result ≡ number_of self }
    {
        match self {
            Row::Unlock => 0,
            Row::UnlockShared => 1,
            Row::Release => 2,
            Row::CountDown => 3,
            Row::Arrival => 4,
            Row::Completion => 5,
            Row::Failure => 6,
            Row::Finish => 7,
            Row::Request => 8,
            Row::Registration => 9,
            Row::CallbackEnd => 10,
            Row::Outcome => 11,
        }
    }
}

/// The row on whose left a change of an object of this kind stands, if any.
pub fn given(kind: Kind, op: Op) -> Option<Row>
    ensures { result ≡ given kind op }
{
    match (kind, op) {
        (Kind::Mutex { .. } | Kind::Shared, Op::Unlock) => Some(Row::Unlock),
        (Kind::Shared, Op::UnlockShared) => Some(Row::UnlockShared),
        (Kind::Semaphore { .. }, Op::Release) => Some(Row::Release),
        (Kind::Latch { .. }, Op::CountDown) => Some(Row::CountDown),
        (Kind::Barrier { .. }, Op::Arrive | Op::Drop) => Some(Row::Arrival),
        (Kind::Barrier { .. }, Op::Complete) => Some(Row::Completion),
        (Kind::Once, Op::Fail) => Some(Row::Failure),
        (Kind::Once, Op::Finish) => Some(Row::Finish),
        (Kind::Stop { .. }, Op::Request) => Some(Row::Request),
        (Kind::Stop { .. }, Op::Register) => Some(Row::Registration),
        (Kind::Stop { .. }, Op::Finish) => Some(Row::CallbackEnd),
        (Kind::Future, Op::Set) => Some(Row::Outcome),
        _ => None,
    }
}

/// The rows on whose right a change stands.
pub fn rows_of_change(op: Op, reply: Reply) -> &'static [Row]
    ensures { result.now ≡ filter (λ row. taken_by_change row op reply) ALL }
{
    match (op, reply) {
        (Op::Lock, _) | (Op::TryLock, Reply::True) => &[Row::Unlock, Row::UnlockShared],
        (Op::LockShared, _) | (Op::TryLockShared, Reply::True) => &[Row::Unlock],
        (Op::Acquire, _) | (Op::TryAcquire, Reply::True) => &[Row::Release],
        (Op::Arrive | Op::Drop, _) => &[Row::Arrival],
        (Op::Begin, _) => &[Row::Failure, Row::Registration],
        (Op::RegisterNow, _) => &[Row::Request],
        (Op::Deregister, Reply::Ran) => &[Row::CallbackEnd],
        _ => &[],
    }
}

/// The rows on whose right a look stands.
pub fn rows_of_look(op: Op, reply: Reply) -> &'static [Row]
    ensures { result.now ≡ filter (λ row. taken_by_look row op reply) ALL }
{
    match (op, reply) {
        (Op::Wait, _) => &[Row::CountDown, Row::Completion],
        (Op::TryWait, Reply::True) => &[Row::CountDown],
        (Op::Passive, _) => &[Row::Finish],
        (Op::StopRequested, Reply::True) => &[Row::Request],
        (Op::Ready, _) => &[Row::Outcome],
        _ => &[],
    }
}
