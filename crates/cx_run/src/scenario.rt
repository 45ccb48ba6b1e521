//! A whole run.
ghost use Rattle.std.specs.Prelude.{◌≡◌, ◌≤◌, length, IfOk};
ghost use Rattle.cx_history.specs.Views.{recorded_of};
ghost use Rattle.cx_history.specs.Legal.{LegalRecord};
ghost use Rattle.cx_history.specs.Follows.{Follows};
ghost use Rattle.cx_history.specs.IsRecord.{IsRecord};
ghost use Rattle.cx_history.specs.Histories.{list_of};
ghost use Rattle.cx_io.specs.Spawning.{Raised, RaisedAtLeast};
ghost use Rattle.cx_work.specs.Bodies.{scene_in};
ghost use Rattle.cx_work.specs.RunNow.{IsRunNow, AreAllNew, AreShared, objects_of_all};
ghost use Rattle.cx_work.specs.Accesses.{AreMadeAs};
ghost use Rattle.cx_run.specs.Runs.{AreJoined, starts_in, refusals_in};
ghost use Rattle.cx_run.specs.Results.{AreWhole, changes_elsewhere};

use crate::run::Run;
use cx_history::Record;
use cx_io::Spawner;
use cx_kinds::Access;
use cx_names::NoMemory;
use cx_work::{Gate, Objects, Passes, Work};
use std::alloc::Global;
use std::sync::{Arc, Wait};
use std::thread::Threads;

/// What main has seen of each object at the end of a run: the whole history.
#[derive(Drop)]
pub struct Fronts {
    /// Main's accesses, by the objects' numbers, which have taken in every other thread's.
    pub accesses: Vec<Access>,
}

/// Runs a scenario on real threads: main's calls on the calling thread, the others on threads that `spawner` starts
/// [thread.thread.constr] and that are joined [thread.thread.member]. Waits wherever a call of the text does.
///
/// `objects` are those of the scenario, which has 1 to 64 threads, main first, and `passes` were made with them and have not
/// been used. `gate` is called round each call of the text, on the thread that makes it. Each thread's list has its room before
/// the first start.
///
/// Gives the record of what each thread did, and main's accesses, which have then taken in every other thread's. A start that the
/// spawner refuses is an item that says so, and no error. `NoMemory` comes where memory doesn't suffice; the passes are gone
/// then. Whatever the answer, as many threads were joined as were started.
pub fn run_on<
    G: Gate + Send + Sync,
    P: Spawner<Work<G>>,
    R: Threads + Wait + Copy + Send + 'static,
>(
    rt: &R,
    alloc: Global,
    objects: &Objects,
    passes: Passes,
    spawner: &mut P,
    gate: &Arc<G, Global>,
) -> Result<(Record, Fronts), NoMemory>
    requires runs { IsRunNow (scene_in objects.now) }
    requires made { AreMadeAs (scene_in objects.now).objects (objects_of_all passes.threads.items) }
    requires passes { AreAllNew (objects_of_all passes.threads.items) (length (scene_in objects.now).threads) passes.threads.items }
    requires shares { AreShared (scene_in objects.now) passes.threads.items }
    requires threads { (1 ≤ length (scene_in objects.now).threads) × (length (scene_in objects.now).threads ≤ 64) }
    ensures legal { IfOk result (λ t. LegalRecord (scene_in objects.now) (recorded_of t.0)) }
    ensures follows { IfOk result (λ t. Follows (scene_in objects.now) (recorded_of t.0)) }
    ensures formed { IfOk result (λ t. IsRecord (scene_in objects.now) (recorded_of t.0)) }
    ensures fronts { IfOk result (λ t. AreWhole (scene_in objects.now) (objects_of_all passes.threads.items) t.1.accesses.items (recorded_of t.0)) }
    ensures started { IfOk result (λ t. Raised (P.started spawner.old) (P.started spawner.new) (starts_in (list_of (recorded_of t.0) 0))) }
    ensures joined { AreJoined (P.started spawner.old) (P.joined spawner.old) (P.started spawner.new) (P.joined spawner.new) }
    ensures carried { IfOk result (λ t. Raised (P.carried spawner.old) (P.carried spawner.new) (changes_elsewhere (recorded_of t.0))) }
    ensures faults { IfOk result (λ t. RaisedAtLeast (P.faults spawner.old) (P.faults spawner.new) (refusals_in (list_of (recorded_of t.0) 0))) }
{
    let mut run = Run::prepare(alloc, objects, passes, gate)?;
    if run.complete(rt, spawner, &**gate).is_err() {
        run.give_up(rt, spawner);
        return Err(NoMemory);
    }
    let (record, accesses) = run.into_record(alloc)?;
    Ok((record, Fronts { accesses }))
}
