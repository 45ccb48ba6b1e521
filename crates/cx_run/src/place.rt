//! Where a thread other than main is.
use cx_items::Item;
use cx_jthread::Thread;
use cx_work::{Gate, Work};

/// Where a thread other than main is.
#[derive(Drop)]
pub(crate) enum Place<G: Gate + Send + Sync> {
    /// It was not started. Its work is ready.
    Waiting(Work<G>),
    /// It was started, and is to be joined.
    Running(Thread<Work<G>>),
    /// It was joined and its passes were taken in. It has made these items.
    Ended(Vec<Item>),
    /// It was never started, and its passes were taken in.
    Idle,
}

impl<G: Gate + Send + Sync> Place<G> {
    ghost use Rattle.std.specs.Prelude.{◌≡◌, false, MatchOption};
    ghost use Rattle.cx_run.specs.declared.place.Place.TheVariants as places;
    ghost use Rattle.cx_run.specs.Runs.{is_waiting, is_running};

    /// The work of a thread that was not started.
    pub(crate) fn into_work(self) -> Option<Work<G>>
        ensures { MatchOption result (is_waiting self ≡ false) (λ work. self ≡ places.Waiting work) }
    {
        match self {
            Place::Waiting(work) => Some(work),
            Place::Running(_) => None,
            Place::Ended(_) => None,
            Place::Idle => None,
        }
    }

    /// The thread that is to be joined.
    pub(crate) fn into_thread(self) -> Option<Thread<Work<G>>>
        ensures { MatchOption result (is_running self ≡ false) (λ thread. self ≡ places.Running thread) }
    {
        match self {
            Place::Running(thread) => Some(thread),
            Place::Waiting(_) => None,
            Place::Ended(_) => None,
            Place::Idle => None,
        }
    }
}
