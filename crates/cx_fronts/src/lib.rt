//! Fronts: what each thread of a run has seen of each object, and how the record of a run follows from it.
//!
//! A thread's list of items is a path: with each item its fronts go on, by exactly the changes that the item makes. The
//! definitions stand in `specs/`: `Paths` has the path, `Growing` how one goes on, `Mains` what main keeps while it starts and
//! joins threads, `Runs` what a run gives and what is so of its record.
#![tactic(auto)]

ghost use Rattle.cx_fronts.specs.Counts.{ChangesAreCounted};
ghost use Rattle.cx_fronts.specs.Growing.{PathsCompose, PathsDrift, OneItemMore, ChangeGoes, LookGoes, ReplyGoes, OneStartMore, OneLaunchMore, RefusalGoes, OneJoinMore};
ghost use Rattle.cx_fronts.specs.Logs.{OneCallMore};
ghost use Rattle.cx_fronts.specs.Mains.{RunsEnd, MainsEnd};
ghost use Rattle.cx_fronts.specs.Runs.{FromRun, PassesAreLegal, FrontsAreHistories, CompletionsAreSeen, OthersDontComplete, RecordsAgree, ChangesAreOwn, LooksAreOwn, RunsAreRight};
ghost use Rattle.cx_fronts.specs.Example as sample;

/// A path goes on by another.
pub fn paths_compose()
    ensures { PathsCompose }
{}

/// Fronts may grow at the end of a path without own changes.
pub fn paths_drift()
    ensures { PathsDrift }
{}

/// A path goes on by an item.
pub fn one_item_more()
    ensures { OneItemMore }
{}

/// A change behind all that was seen, which stands in the front after it, is an item of its thread.
pub fn change_goes()
    ensures { ChangeGoes }
{}

/// A look that is shown by the front after it is an item of its thread.
pub fn look_goes()
    ensures { LookGoes }
{}

/// A reply is an item that leaves the fronts as they are.
pub fn reply_goes()
    ensures { ReplyGoes }
{}

/// A path goes on by the log of a call on one object, of which only the fronts before and after are known.
pub fn one_call_more()
    ensures { OneCallMore }
{}

/// A path goes on by the start of a thread.
pub fn one_start_more()
    ensures { OneStartMore }
{}

/// A path goes on by a launch.
pub fn one_launch_more()
    ensures { OneLaunchMore }
{}

/// A start or a launch for which there was no thread leaves the fronts as they are.
pub fn refusal_goes()
    ensures { RefusalGoes }
{}

/// A path goes on by a join.
pub fn one_join_more()
    ensures { OneJoinMore }
{}

/// Main's path and those of the others are what a legal record is built of.
pub fn runs_end()
    ensures { RunsEnd }
{}

/// What main kept while it started and joined threads is that too, once all the others have ended.
pub fn mains_end()
    ensures { MainsEnd }
{}

/// What a run's lists and passes give is a legal record.
pub fn passes_are_legal()
    ensures { PassesAreLegal }
{}

/// The fronts of main's last passes are the histories of the record.
pub fn fronts_are_histories()
    ensures { FrontsAreHistories }
{}

/// Whether a change leaves its barrier completing is what any front that holds it says.
pub fn completions_are_seen()
    ensures { CompletionsAreSeen }
{}

/// No change on an object that isn't a barrier leaves one completing.
pub fn others_dont_complete()
    ensures { OthersDontComplete }
{}

/// Each thread may judge by its own last fronts what completes.
pub fn records_agree()
    ensures { RecordsAgree }
{}

/// Each change of a list is by its thread.
pub fn changes_are_own()
    ensures { ChangesAreOwn }
{}

/// Each look of a list is by its thread.
pub fn looks_are_own()
    ensures { LooksAreOwn }
{}

/// A list makes as many changes as it makes on all the objects of its scene.
pub fn changes_are_counted()
    ensures { ChangesAreCounted }
{}

/// The record of a run is legal, follows its scenario and is well formed, and its histories are main's last fronts.
pub fn runs_are_right()
    ensures { RunsAreRight }
{}

/// The run of two threads of `Example` is built by these laws, so what they ask for can be had.
pub fn example()
    ensures { FromRun sample.scene sample.recorded }
{}
