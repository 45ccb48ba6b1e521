use std::alloc::{AllocError, AllocFailed};
use thiserror::Error;

/// Memory ran out.
#[derive(Clone, Copy, Debug, PartialEq, Eq, Error)]
#[error("out of memory")]
pub struct NoMemory;

impl From<AllocError> for NoMemory {
    fn from(_e: AllocError) -> NoMemory {
        NoMemory
    }
}

impl<T: Drop> From<AllocFailed<T>> for NoMemory {
    fn from(_e: AllocFailed<T>) -> NoMemory {
        NoMemory
    }
}

/// Why a call on a lock or a thread is refused: the `std::errc` of C++ [system.error.syn].
#[derive(Clone, Copy, Debug, PartialEq, Eq, Error)]
pub enum Errc {
    /// The caller would wait for itself.
    #[error("resource_deadlock_would_occur")]
    ResourceDeadlockWouldOccur,
    /// The caller doesn't own what it would give back or read.
    #[error("operation_not_permitted")]
    OperationNotPermitted,
    /// The thread isn't joinable.
    #[error("invalid_argument")]
    InvalidArgument,
}

/// Why a call on a future or a promise is refused: the `std::future_errc` of C++ [future.syn].
#[derive(Clone, Copy, Debug, PartialEq, Eq, Error)]
pub enum FutureErrc {
    /// The future was retrieved before.
    #[error("future_already_retrieved")]
    FutureAlreadyRetrieved,
    /// The promise has its value or its exception already.
    #[error("promise_already_satisfied")]
    PromiseAlreadySatisfied,
    /// There is no shared state.
    #[error("no_state")]
    NoState,
}
