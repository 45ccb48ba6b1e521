ghost use Rattle.std.specs.Prelude.{◌≡◌, ◌≢◌, ◌≤◌, ◌↔◌, Some, None, Err, IsTrue, IsSome, IfSome, IfOk, IfErr, IsOk, OnOk, OnErr};
ghost use Rattle.cx_names.specs.declared.Errc.TheVariants as errors;
ghost use Rattle.cx_io.specs.Edge.{Rose};
ghost use Rattle.cx_io.specs.Spawning.{CountsStart, Raised};
ghost use Rattle.cx_jthread.specs.Threads.{job_to_join};

use cx_io::{Job, Running, Spawner};
use cx_names::{Errc, ThreadNo};
use std::sync::Wait;
use std::thread::Threads;

/// A thread with its number, that a spawner started [thread.thread.class].
///
/// Unlike its C++ namesake it is told its number, since a scenario counts its threads, and its spawner is handed to
/// each call. One that is dropped while it is joinable runs on, and its outcome is lost.
#[derive(Drop)]
pub struct Thread<J: Job> {
    number: ThreadNo,
    running: Option<Running<J>>,
}

impl<J: Job> Thread<J> {
    /// Starts the job, which must be fit to run, on a thread with this number [thread.thread.constr]. The thread is
    /// joinable.
    ///
    /// `Err` gives back the very job that was handed in. It is the standard's `resource_unavailable_try_again`, and
    /// comes only where the spawner's count of faults rose.
    pub fn start<P: Spawner<J>, R: Threads + Wait + Copy + Send + 'static>(
        rt: &R,
        spawner: &mut P,
        number: ThreadNo,
        job: J,
    ) -> Result<Thread<J>, J>
        requires needs { J.needs job }
        ensures number { IfOk result (λ thread. thread.number ≡ number) }
        ensures joinable { IfOk result (λ thread. job_to_join thread ≡ Some job) }
        ensures given_back { IfErr result (λ back. back ≡ job) }
        ensures refused { OnErr result (Rose (P.faults spawner.old) (P.faults spawner.new)) }
        ensures faults { P.faults spawner.old ≤ P.faults spawner.new }
        ensures started { CountsStart result (P.started spawner.old) (P.started spawner.new) }
        ensures joins { P.joined spawner.new ≡ P.joined spawner.old }
        ensures carried { P.carried spawner.new ≡ P.carried spawner.old }
    {
        match spawner.start(rt, job) {
            Ok(running) => Ok(Thread {
                number,
                running: Some(running),
            }),
            Err(back) => Err(back),
        }
    }

    /// Whether it was not joined yet [thread.thread.member].
    pub fn joinable(&self) -> bool
        ensures { IsTrue result ↔ IsSome (job_to_join self.now) }
    {
        self.running.is_some()
    }

    /// Its number, which never changes.
    pub fn number(&self) -> ThreadNo
        ensures { result ≡ self.now.number }
    {
        self.number
    }

    /// Waits until the thread `self` has ended, and gives its job's outcome [thread.thread.member]. `caller` is the
    /// number of the thread that waits. A job that its spawner kept is run here, so the caller owes again that it is fit
    /// to run.
    ///
    /// Refuses InvalidArgument where it isn't joinable, and else ResourceDeadlockWouldOccur where `caller` is its own
    /// number. A refusal changes nothing. After an outcome it isn't joinable any more.
    pub fn join<P: Spawner<J>, R: Threads + Wait>(
        &mut self,
        rt: &R,
        spawner: &mut P,
        caller: ThreadNo,
    ) -> Result<J::Out, Errc>
        requires needs { IfSome (job_to_join self.old) (λ job. J.needs job) }
        ensures not_joinable { job_to_join self.old ≡ None → result ≡ Err errors.InvalidArgument }
        ensures itself { IsSome (job_to_join self.old) → caller ≡ self.old.number → result ≡ Err errors.ResourceDeadlockWouldOccur }
        ensures joined { IsSome (job_to_join self.old) → caller ≢ self.old.number → IsOk result }
        ensures gives { IfOk result (λ out. IfSome (job_to_join self.old) (λ job. J.gives job out)) }
        ensures spent { OnOk result (job_to_join self.new ≡ None) }
        ensures number { self.new.number ≡ self.old.number }
        ensures refused { OnErr result ((self.new ≡ self.old) × (spawner.new ≡ spawner.old)) }
        ensures joins { OnOk result (Raised (P.joined spawner.old) (P.joined spawner.new) 1) }
        ensures carried { IfOk result (λ out. Raised (P.carried spawner.old) (P.carried spawner.new) (J.steps_of out)) }
        ensures started { P.started spawner.new ≡ P.started spawner.old }
        ensures faults { P.faults spawner.new ≡ P.faults spawner.old }
    {
        if self.joinable() && caller == self.number {
            return Err(Errc::ResourceDeadlockWouldOccur);
        }
        match self.running.take() {
            Some(running) => Ok(spawner.join(rt, running)),
            None => Err(Errc::InvalidArgument),
        }
    }
}
