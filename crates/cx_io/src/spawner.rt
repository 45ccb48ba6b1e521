ghost use Rattle.std.specs.Prelude.{◌≡◌, ◌≤◌, ℕ, IfOk, IfErr, IsTrue, IsFalse, OnErr};
ghost use Rattle.cx_io.specs.Edge.{Rose};
ghost use Rattle.cx_io.specs.Spawning.{CountsStart, Raised, job_of};

use crate::job::Job;
use crate::running::{Running, end, try_start};
use std::alloc::Global;
use std::sync::Wait;
use std::thread::Threads;

/// Starts jobs on threads and joins them [thread.thread.constr, thread.thread.member]. It counts what it does; each
/// count stands still at 2^64 - 1.
///
/// An implementation says which starts it refuses, and counts. What a start and a join do is the same for all.
pub trait Spawner<J: Job> {
    /// How many starts were refused. The count never falls.
    ghost faults: { Self → ℕ };

    /// How many jobs were started.
    ghost started: { Self → ℕ };

    /// How many jobs were joined.
    ghost joined: { Self → ℕ };

    /// How many steps the joined jobs told of, in all.
    ghost carried: { Self → ℕ };

    /// Where it finds memory for handing a job to its thread.
    fn alloc(&self) -> Global;

    /// Whether it refuses the next start before a thread is asked for. A refusal is a fault.
    fn refuses(&mut self) -> bool
        ensures cause { IsTrue result → Rose (faults self.old) (faults self.new) }
        ensures faults { faults self.old ≤ faults self.new }
        ensures started { started self.new ≡ started self.old }
        ensures joined { joined self.new ≡ joined self.old }
        ensures carried { carried self.new ≡ carried self.old };

    /// Whether it keeps a job for which no thread could be made, to be run when it is joined. Where it doesn't, the
    /// start is refused, which is a fault.
    fn keeps(&mut self) -> bool
        ensures cause { IsFalse result → Rose (faults self.old) (faults self.new) }
        ensures faults { faults self.old ≤ faults self.new }
        ensures started { started self.new ≡ started self.old }
        ensures joined { joined self.new ≡ joined self.old }
        ensures carried { carried self.new ≡ carried self.old };

    /// Counts a job that was started.
    fn count_start(&mut self)
        ensures faults { faults self.new ≡ faults self.old }
        ensures started { Raised (started self.old) (started self.new) 1 }
        ensures joined { joined self.new ≡ joined self.old }
        ensures carried { carried self.new ≡ carried self.old };

    /// Counts a job that was joined, and the steps that it tells of.
    fn count_join(&mut self, steps: u64)
        ensures faults { faults self.new ≡ faults self.old }
        ensures started { started self.new ≡ started self.old }
        ensures joined { Raised (joined self.old) (joined self.new) 1 }
        ensures carried { Raised (carried self.old) (carried self.new) steps };

    /// Starts a job, which must be fit to run.
    ///
    /// Where it answers `Ok`, the job runs on a thread of its own, or was kept and runs when it is joined; the count
    /// of started jobs rose by one. `Err` gives back the very job that was handed in. It is the standard's
    /// `resource_unavailable_try_again`, and comes only where the count of faults rose.
    final fn start<R: Threads + Wait + Copy + Send + 'static>(
        &mut self,
        rt: &R,
        job: J,
    ) -> Result<Running<J>, J>
        requires needs { J.needs job }
        ensures told { IfOk result (λ running. job_of running ≡ job) }
        ensures given_back { IfErr result (λ back. back ≡ job) }
        ensures refused { OnErr result (Rose (faults self.old) (faults self.new)) }
        ensures faults { faults self.old ≤ faults self.new }
        ensures started { CountsStart result (started self.old) (started self.new) }
        ensures joined { joined self.new ≡ joined self.old }
        ensures carried { carried self.new ≡ carried self.old }
    {
        if self.refuses() {
            return Err(job);
        }
        let running = match try_start(rt, self.alloc(), job) {
            Ok(handle) => Running::There(handle),
            Err(job) => {
                if !self.keeps() {
                    return Err(job);
                }
                Running::Here(job)
            }
        };
        self.count_start();
        Ok(running)
    }

    /// Waits until the job has ended, and gives its outcome. A job that was kept is run here, so the caller owes again
    /// that it is fit to run.
    ///
    /// The outcome is one that the job may give. The count of joined jobs rose by one, and that of carried steps by the
    /// steps that the outcome tells of.
    final fn join<R: Threads + Wait>(&mut self, rt: &R, running: Running<J>) -> J::Out
        requires needs { J.needs (job_of running) }
        ensures gives { J.gives (job_of running) result }
        ensures faults { faults self.new ≡ faults self.old }
        ensures started { started self.new ≡ started self.old }
        ensures joined { Raised (joined self.old) (joined self.new) 1 }
        ensures carried { Raised (carried self.old) (carried self.new) (J.steps_of result) }
    {
        let out = end(rt, running);
        self.count_join(J::steps(&out));
        out
    }
}
