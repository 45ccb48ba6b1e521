//! Laws of every legal history, in the standard's words: they show that the machines mean what they should.
//!
//! Each law speaks of the changes of a history: who locked, and who unlocked between. The statements stand in `specs/`, a file a
//! kind; the functions have no body, and the laws of a kind are the contract of one. Since each beginning of a legal history is
//! one too, what a law says of a history holds at each moment of it.
#![tactic(auto)]

ghost use Rattle.cx_laws.specs.Mutex.{OneOwner, OwnersUnlock, PlainIsOwnedOnce, LevelsAreFew, OwnersWrite};
ghost use Rattle.cx_laws.specs.Shared.{OneWriter, WriterExcludesReaders, SharedOwnersUnlock};
ghost use Rattle.cx_laws.specs.Semaphore.{CounterIsThere, CounterIsWithinMax, FailsAtZero};
ghost use Rattle.cx_laws.specs.Latch.{CountedWithin, OpensAtZero, StaysOpen};
ghost use Rattle.cx_laws.specs.Barrier.{CompletesWhenFull, LastCompletes, TokenIsThePhase, WaitsForCompletion};
ghost use Rattle.cx_laws.specs.Once.{ReturnsOnce, PassiveAfterReturn, NothingAfterReturn, OneRuns, EndsWhatItBegan};
ghost use Rattle.cx_laws.specs.Condition.{UnblockedWasNotified, NotifiedWaits, WithdrawnWaits};
ghost use Rattle.cx_laws.specs.Stop.{RequestedOnce, BeginsOnce, NeverAfterDeregistration, BeginsAfterRequest, WaitsForItsReturn};
ghost use Rattle.cx_laws.specs.Future.{ReadyOnce, SeesWhatWasStored, OutcomeStays, DeferredRunsOnce};

/// Mutexes, plain and recursive.
pub fn mutexes()
    ensures one_owner { OneOwner }
    ensures owners_unlock { OwnersUnlock }
    ensures plain_is_owned_once { PlainIsOwnedOnce }
    ensures levels_are_few { LevelsAreFew }
    ensures owners_write { OwnersWrite }
{}

/// Shared mutexes.
pub fn shared_mutexes()
    ensures one_writer { OneWriter }
    ensures writer_excludes_readers { WriterExcludesReaders }
    ensures shared_owners_unlock { SharedOwnersUnlock }
{}

/// Counting semaphores.
pub fn semaphores()
    ensures counter_is_there { CounterIsThere }
    ensures counter_is_within_max { CounterIsWithinMax }
    ensures fails_at_zero { FailsAtZero }
{}

/// Latches.
pub fn latches()
    ensures counted_within { CountedWithin }
    ensures opens_at_zero { OpensAtZero }
    ensures stays_open { StaysOpen }
{}

/// Barriers.
pub fn barriers()
    ensures completes_when_full { CompletesWhenFull }
    ensures last_completes { LastCompletes }
    ensures token_is_the_phase { TokenIsThePhase }
    ensures waits_for_completion { WaitsForCompletion }
{}

/// Once flags.
pub fn once_flags()
    ensures returns_once { ReturnsOnce }
    ensures passive_after_return { PassiveAfterReturn }
    ensures nothing_after_return { NothingAfterReturn }
    ensures one_runs { OneRuns }
    ensures ends_what_it_began { EndsWhatItBegan }
{}

/// Condition variables.
pub fn conditions()
    ensures unblocked_was_notified { UnblockedWasNotified }
    ensures notified_waits { NotifiedWaits }
    ensures withdrawn_waits { WithdrawnWaits }
{}

/// Stop states and their callbacks.
pub fn stop_states()
    ensures requested_once { RequestedOnce }
    ensures begins_once { BeginsOnce }
    ensures never_after_deregistration { NeverAfterDeregistration }
    ensures begins_after_request { BeginsAfterRequest }
    ensures waits_for_its_return { WaitsForItsReturn }
{}

/// Shared states of futures.
pub fn futures()
    ensures ready_once { ReadyOnce }
    ensures sees_what_was_stored { SeesWhatWasStored }
    ensures outcome_stays { OutcomeStays }
    ensures deferred_runs_once { DeferredRunsOnce }
{}
