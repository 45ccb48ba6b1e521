ghost use Rattle.std.specs.Prelude.{◌≡◌, ◌≢◌, true, false, None, IfOk};
ghost use Rattle.std.specs.List.{list_all};
ghost use Rattle.cx_io.specs.Edge.{Rose};
ghost use Rattle.cx_scene.specs.Scene.{scene_of};
ghost use Rattle.cx_run.specs.Runs.{tally, AreJoined};
ghost use Rattle.cx_commands.specs.Top.{limit, IsFaulty, TookWhatItCould, OfRead};
ghost use Rattle.cx_commands.specs.Built.{is_built, notifies_none, is_built_object, is_built_by};
ghost use Rattle.cx_commands.specs.Complete.{CompletesFault};
ghost use Rattle.cx_commands.specs.Running.{Ran, AnswersRun, is_run, RunsDone, RunsUnwritten, IsNotBuilt, is_before_starts, CompletesRun, CompletesUnbuilt};

use crate::fault_line::fault_line;
use crate::status::Status;
use cx_io::{ReadFail, Sink, Source, Spawner, read_all, write_all};
use cx_names::NoMemory;
use cx_record::print;
use cx_run::{Fronts, run_on};
use cx_scenario::{ReadErr, Scenario, read};
use cx_scene::{Object, Plan, Small};
use cx_work::{Objects, Open, Work};
use std::alloc::Global;
use std::sync::{Arc, Wait};
use std::thread::Threads;

/// How many bytes a scenario's text has at most.
const LIMIT: usize = 8_388_608;

/// What is to be written of a text, and why.
#[derive(Drop)]
enum RunAnswer {
    /// The scenario was run. Main's accesses are those at the end of the run.
    Ran(Vec<u8>, Fronts),
    /// The scenario isn't one that runs are built for. Nothing is to be written.
    Unbuilt,
    /// The text is no scenario.
    Faulty(Vec<u8>),
}

/// Whether a run has such objects.
fn is_built_object(object: &Object) -> bool
    ensures { result ≡ is_built_object object.now }
{
    match object {
        Object::Mutex { numbers } => *numbers == 0,
        Object::Recursive => true,
        Object::Shared => true,
        Object::Semaphore { .. } => true,
        Object::Latch { .. } => true,
        Object::Barrier { small, .. } => notifies_none(*small),
        Object::Once => true,
        _ => false,
    }
}

/// Whether a completion notifies no condition.
fn notifies_none(small: Option<Small>) -> bool
    ensures { result ≡ notifies_none small }
{
    match small {
        Some(Small::NotifyOne(_)) => false,
        Some(Small::NotifyAll(_)) => false,
        _ => true,
    }
}

/// Whether a run has all of these objects.
fn are_built_objects(objects: &[Object]) -> bool
    ensures { result ≡ list_all is_built_object objects.now }
{
    objects.iter().all(|object| is_built_object(object))
}

/// Whether runs are built for what the plan has. A thread that isn't a plain one has an object of its own.
fn is_built_plan(plan: &Plan) -> bool
    ensures { result ≡ is_built_by (scene_of plan.now) }
{
    are_built_objects(plan.objects.as_slice()) && plan.callbacks.is_empty()
}

/// Whether a scenario is one that runs are built for.
fn is_built(scenario: &Scenario) -> bool
    ensures { result ≡ is_built scenario.now }
{
    is_built_plan(scenario.plan())
}

/// Runs a scenario, and gives its text with that of the record, and main's accesses. Waits.
#[tactic(auto, using(crate::proofs::Joined::none_joined))]
fn run_scenario<P: Spawner<Work<Open>>, T: Threads + Wait + Copy + Send + 'static>(
    rt: &T,
    alloc: Global,
    scenario: &Scenario,
    spawner: &mut P,
) -> Result<(Vec<u8>, Fronts), NoMemory>
    requires built { is_built scenario.now ≡ true }
    ensures ran { IfOk result (λ t. Ran scenario.now (tally (P.faults spawner.old) (P.started spawner.old) (P.carried spawner.old))
        (tally (P.faults spawner.new) (P.started spawner.new) (P.carried spawner.new)) t.1 t.0.items) }
    ensures joined { AreJoined (P.started spawner.old) (P.joined spawner.old) (P.started spawner.new) (P.joined spawner.new) }
{
    let (objects, passes) = Objects::make(alloc, scenario.plan())?;
    let gate = Arc::new(alloc, Open)?;
    let (record, fronts) = run_on(rt, alloc, &objects, passes, spawner, &gate)?;
    let none_live = cx_record::Threads {
        threads: Vec::new(alloc),
    };
    let text = print(alloc, scenario, &record, &none_live)?;
    Ok((text, fronts))
}

/// Reads a text and runs its scenario. Waits.
#[tactic(auto, using(crate::proofs::Joined::none_joined))]
fn run_text<P: Spawner<Work<Open>>, T: Threads + Wait + Copy + Send + 'static>(
    rt: &T,
    alloc: Global,
    bytes: &[u8],
    spawner: &mut P,
) -> Result<RunAnswer, NoMemory>
    ensures answer { IfOk result (λ answer. AnswersRun answer (tally (P.faults spawner.old) (P.started spawner.old) (P.carried spawner.old))
        (tally (P.faults spawner.new) (P.started spawner.new) (P.carried spawner.new)) bytes.now) }
    ensures starts_none { IfOk result (λ answer. is_run answer ≡ false → spawner.new ≡ spawner.old) }
    ensures joined { AreJoined (P.started spawner.old) (P.joined spawner.old) (P.started spawner.new) (P.joined spawner.new) }
{
    match read(alloc, bytes) {
        Ok(scenario) => {
            if !is_built(&scenario) {
                return Ok(RunAnswer::Unbuilt);
            }
            let (text, fronts) = run_scenario(rt, alloc, &scenario, spawner)?;
            Ok(RunAnswer::Ran(text, fronts))
        }
        Err(ReadErr::NoMemory) => Err(NoMemory),
        Err(ReadErr::Bad(fault)) => {
            let line = fault_line(alloc, fault)?;
            Ok(RunAnswer::Faulty(line))
        }
    }
}

/// Runs what the source has; all of the contract but what must succeed. Waits.
#[tactic(auto, using(crate::proofs::Joined::none_joined))]
fn run_source<
    R: Source,
    K: Sink,
    P: Spawner<Work<Open>>,
    T: Threads + Wait + Copy + Send + 'static,
>(rt: &T, alloc: Global, source: &mut R, sink: &mut K, spawner: &mut P) -> (Status, Option<Fronts>)
    ensures done { result.0 ≡ Status.Done → RunsDone result.1 (R.left source.old) (K.taken sink.old) (K.taken sink.new)
        (tally (P.faults spawner.old) (P.started spawner.old) (P.carried spawner.old)) (tally (P.faults spawner.new) (P.started spawner.new) (P.carried spawner.new)) }
    ensures not_built { result.0 ≡ Status.NotBuilt → IsNotBuilt (R.left source.old) × (K.taken sink.new ≡ K.taken sink.old) }
    ensures bad_scenario { result.0 ≡ Status.BadScenario → OfRead limit (R.left source.old) IsFaulty
        (TookWhatItCould (K.taken sink.old) (K.taken sink.new) (K.faults sink.old) (K.faults sink.new)) }
    ensures read_fault { result.0 ≡ Status.ReadFault → Rose (R.faults source.old) (R.faults source.new) × (K.taken sink.new ≡ K.taken sink.old) }
    ensures write_fault { result.0 ≡ Status.WriteFault → Rose (K.faults sink.old) (K.faults sink.new)
        × RunsUnwritten (R.left source.old) (K.taken sink.old) (K.taken sink.new)
        (tally (P.faults spawner.old) (P.started spawner.old) (P.carried spawner.old)) (tally (P.faults spawner.new) (P.started spawner.new) (P.carried spawner.new)) }
    ensures no_memory { result.0 ≡ Status.NoMemory → K.taken sink.new ≡ K.taken sink.old }
    ensures no_fronts { result.0 ≢ Status.Done → result.1 ≡ None }
    ensures starts_none { is_before_starts result.0 ≡ true → spawner.new ≡ spawner.old }
    ensures joined { AreJoined (P.started spawner.old) (P.joined spawner.old) (P.started spawner.new) (P.joined spawner.new) }
    ensures no_bad_words { result.0 ≢ Status.BadWords }
    ensures no_illegal { result.0 ≢ Status.Illegal }
    ensures no_stuck { result.0 ≢ Status.Stuck }
{
    let bytes = match read_all(alloc, source, LIMIT) {
        Ok(bytes) => bytes,
        Err(ReadFail::Failed) => return (Status::ReadFault, None),
        Err(ReadFail::NoMemory) => return (Status::NoMemory, None),
    };
    let answer = match run_text(rt, alloc, &bytes, spawner) {
        Ok(answer) => answer,
        Err(NoMemory) => return (Status::NoMemory, None),
    };
    match answer {
        RunAnswer::Ran(text, fronts) => {
            let whole = write_all(sink, &text);
            if whole {
                (Status::Done, Some(fronts))
            } else {
                (Status::WriteFault, None)
            }
        }
        RunAnswer::Unbuilt => (Status::NotBuilt, None),
        RunAnswer::Faulty(line) => {
            write_all(sink, &line);
            (Status::BadScenario, None)
        }
    }
}

/// Runs the scenario that the source has on real threads [thread.thread.class], and writes its canonical text and the
/// record. Waits: it need not return.
///
/// `rt` starts threads and waits; `alloc` is where all memory is taken. `source` is read to its end, or to one byte past
/// 8,388,608. Main's calls are made on the calling thread, and `spawner` starts the others. `sink` gets nothing before the
/// run is over. With `Done` alone main's accesses at the end of the run are given, by the numbers of the objects.
///
/// - `Done`: every thread has ended, and all was written.
/// - `NotBuilt`: the scenario declares something other than threads, mutexes without numbers, recursive and shared
///   mutexes, semaphores, latches, once flags, and barriers whose completion notifies no condition. Nothing was started
///   or written.
/// - `BadScenario`: the text is no scenario. `fault LINE KIND` names its first fault.
/// - `ReadFault`, `WriteFault`: the source or the sink failed.
/// - `NoMemory`: memory ran out, and nothing was written.
///
/// A start that the spawner refuses is no error: the record tells of it, and the run goes on without that thread. Whatever
/// the status, as many threads were joined as were started.
pub fn run_call<
    R: Source,
    K: Sink,
    P: Spawner<Work<Open>>,
    T: Threads + Wait + Copy + Send + 'static,
>(rt: &T, alloc: Global, source: &mut R, sink: &mut K, spawner: &mut P) -> (Status, Option<Fronts>)
    ensures done { result.0 ≡ Status.Done → RunsDone result.1 (R.left source.old) (K.taken sink.old) (K.taken sink.new)
        (tally (P.faults spawner.old) (P.started spawner.old) (P.carried spawner.old)) (tally (P.faults spawner.new) (P.started spawner.new) (P.carried spawner.new)) }
    ensures not_built { result.0 ≡ Status.NotBuilt → IsNotBuilt (R.left source.old) × (K.taken sink.new ≡ K.taken sink.old) }
    ensures bad_scenario { result.0 ≡ Status.BadScenario → OfRead limit (R.left source.old) IsFaulty
        (TookWhatItCould (K.taken sink.old) (K.taken sink.new) (K.faults sink.old) (K.faults sink.new)) }
    ensures read_fault { result.0 ≡ Status.ReadFault → Rose (R.faults source.old) (R.faults source.new) × (K.taken sink.new ≡ K.taken sink.old) }
    ensures write_fault { result.0 ≡ Status.WriteFault → Rose (K.faults sink.old) (K.faults sink.new)
        × RunsUnwritten (R.left source.old) (K.taken sink.old) (K.taken sink.new)
        (tally (P.faults spawner.old) (P.started spawner.old) (P.carried spawner.old)) (tally (P.faults spawner.new) (P.started spawner.new) (P.carried spawner.new)) }
    ensures no_memory { result.0 ≡ Status.NoMemory → K.taken sink.new ≡ K.taken sink.old }
    ensures no_fronts { result.0 ≢ Status.Done → result.1 ≡ None }
    ensures starts_none { is_before_starts result.0 ≡ true → spawner.new ≡ spawner.old }
    ensures joined { AreJoined (P.started spawner.old) (P.joined spawner.old) (P.started spawner.new) (P.joined spawner.new) }
    ensures no_bad_words { result.0 ≢ Status.BadWords }
    ensures no_illegal { result.0 ≢ Status.Illegal }
    ensures no_stuck { result.0 ≢ Status.Stuck }

    // It gives up for no other cause.
    ensures complete { (Rose (R.faults source.old) (R.faults source.new) → ⊥) → (Rose (K.faults sink.old) (K.faults sink.new) → ⊥)
        → CompletesRun (R.left source.old) result.0 }
    ensures complete_unbuilt { (Rose (R.faults source.old) (R.faults source.new) → ⊥) → CompletesUnbuilt (R.left source.old) result.0 }
    ensures complete_fault { (Rose (R.faults source.old) (R.faults source.new) → ⊥) → CompletesFault (R.left source.old) result.0 }
{
    run_source(rt, alloc, source, sink, spawner)
}
