ghost use Rattle.std.specs.Prelude.{◌≡◌, ◌≢◌, ◌↔◌, true, Some, None, map};
ghost use Rattle.std.specs.String.{string_bytes};
ghost use Rattle.cx_io.specs.Edge.{Rose};
ghost use Rattle.cx_run.specs.Runs.{tally, AreJoined};
ghost use Rattle.cx_command_line.specs.Asked.{command_of, reads_nothing, IsInRange};
ghost use Rattle.cx_command_line.specs.declared.command.Command.TheVariants as commands;
ghost use Rattle.cx_commands.specs.Top.{usage, TookWhatItCould};
ghost use Rattle.cx_commands.specs.Running.{is_before_starts};
ghost use Rattle.cx_commands.specs.Commanded.{SaysDone, SaysNotBuilt, SaysStuck, SaysIllegal, SaysBadScenario, SaysWriteFault, Completes, CompletesOnUnbuilt, CompletesOnFault};

use crate::checking::check_call;
use crate::making::make_call;
use crate::racing::races_call;
use crate::replaying::replay_call;
use crate::running::run_call;
use crate::status::Status;
use cx_command_line::Command;
use cx_io::{Sink, Source, Spawner, write_all};
use cx_names::NoMemory;
use cx_run::Fronts;
use cx_work::{Open, Work};
use std::alloc::Global;
use std::sync::Wait;
use std::thread::Threads;

/// What is written where the words are none that the program knows.
const USAGE: &[u8] = b"usage: cxthread run | replay [SEED] | check | make N | trial N | races\n";

/// Does what a command asks for. Waits where it runs a scenario.
#[tactic(auto, using(crate::proofs::Joined::none_joined))]
fn do_command<
    R: Source,
    K: Sink,
    P: Spawner<Work<Open>>,
    T: Threads + Wait + Copy + Send + 'static,
>(
    rt: &T,
    alloc: Global,
    command: Command,
    source: &mut R,
    sink: &mut K,
    spawner: &mut P,
) -> (Status, Option<Fronts>)
    requires in_range { IsInRange command }
    ensures done { result.0 ≡ Status.Done → SaysDone (Some command) (R.left source.old) (K.taken sink.old) (K.taken sink.new)
        (tally (P.faults spawner.old) (P.started spawner.old) (P.carried spawner.old)) (tally (P.faults spawner.new) (P.started spawner.new) (P.carried spawner.new)) result.1 }
    ensures not_built { result.0 ≡ Status.NotBuilt → SaysNotBuilt (Some command) (R.left source.old) × (K.taken sink.new ≡ K.taken sink.old) }
    ensures stuck { result.0 ≡ Status.Stuck → SaysStuck (Some command) (R.left source.old) (K.taken sink.old) (K.taken sink.new) (K.faults sink.old) (K.faults sink.new) }
    ensures illegal { result.0 ≡ Status.Illegal → SaysIllegal (Some command) (R.left source.old) (K.taken sink.old) (K.taken sink.new) (K.faults sink.old) (K.faults sink.new) }
    ensures bad_scenario { result.0 ≡ Status.BadScenario → SaysBadScenario (Some command) (R.left source.old) (K.taken sink.old) (K.taken sink.new) (K.faults sink.old) (K.faults sink.new) }
    ensures read_fault { result.0 ≡ Status.ReadFault → Rose (R.faults source.old) (R.faults source.new) × (K.taken sink.new ≡ K.taken sink.old) }
    ensures write_fault { result.0 ≡ Status.WriteFault → SaysWriteFault (Some command) (R.left source.old) (K.taken sink.old) (K.taken sink.new) (K.faults sink.old) (K.faults sink.new)
        (tally (P.faults spawner.old) (P.started spawner.old) (P.carried spawner.old)) (tally (P.faults spawner.new) (P.started spawner.new) (P.carried spawner.new)) }
    ensures no_memory { result.0 ≡ Status.NoMemory → K.taken sink.new ≡ K.taken sink.old }
    ensures no_fronts { result.0 ≢ Status.Done → result.1 ≡ None }
    ensures starts_none { is_before_starts result.0 ≡ true → spawner.new ≡ spawner.old }
    ensures joined { AreJoined (P.started spawner.old) (P.joined spawner.old) (P.started spawner.new) (P.joined spawner.new) }
    ensures others_fronts { (Some command) ≢ Some commands.Run → result.1 ≡ None }
    ensures others_start_none { (Some command) ≢ Some commands.Run → spawner.new ≡ spawner.old }
    ensures reads_none { reads_nothing (Some command) ≡ true → source.new ≡ source.old }
    ensures no_bad_words { result.0 ≢ Status.BadWords }

    // It gives up for no other cause.
    ensures complete { (Rose (R.faults source.old) (R.faults source.new) → ⊥) → (Rose (K.faults sink.old) (K.faults sink.new) → ⊥)
        → Completes (Some command) (R.left source.old) result.0 }
    ensures complete_unbuilt { (Rose (R.faults source.old) (R.faults source.new) → ⊥) → CompletesOnUnbuilt (Some command) (R.left source.old) result.0 }
    ensures complete_fault { (Rose (R.faults source.old) (R.faults source.new) → ⊥) → CompletesOnFault (Some command) (R.left source.old) result.0 }
{
    match command {
        Command::Run => run_call(rt, alloc, source, sink, spawner),
        Command::Replay(seed) => (replay_call(alloc, seed, source, sink), None),
        Command::Check => (check_call(alloc, source, sink), None),
        Command::Make(items) => (make_call(alloc, items, sink), None),
        Command::Races => (races_call(alloc, source, sink), None),
    }
}

/// The program: does what the words of the command line ask for. Waits where it runs a scenario.
///
/// `rt` starts threads and waits; `alloc` is where all memory is taken; `words` are those behind the program's name.
/// `source`, `sink` and `spawner` are what the commands read from, write to, and start threads by.
///
/// - `run`: the answer is that of [`run_call`].
/// - `replay`, or `replay` and a seed of 1 to 20 decimal digits that fits in 64 bits: the answer is that of [`replay_call`].
/// - `check`: the answer is that of [`check_call`].
/// - `make` and a number of 1 to 20 decimal digits, from 1 to 4,800: the answer is that of [`make_call`], and nothing is read.
/// - `races`: the answer is that of [`races_call`].
/// - Any other words are `BadWords`, for which the usage line is written and nothing is read.
///
/// Main's accesses are given with `Done` of `run` alone. For other words than `run` the spawner is left as it was. Whatever
/// the status, as many threads were joined as were started.
#[tactic(auto, using(crate::proofs::Refusing::no_memory_completes, crate::proofs::Refusing::no_memory_unbuilt, crate::proofs::Refusing::no_memory_fault, crate::proofs::Joined::none_joined))]
pub fn cxthread<
    R: Source,
    K: Sink,
    P: Spawner<Work<Open>>,
    T: Threads + Wait + Copy + Send + 'static,
>(
    rt: &T,
    alloc: Global,
    words: &[String],
    source: &mut R,
    sink: &mut K,
    spawner: &mut P,
) -> (Status, Option<Fronts>)
    ensures bad_words { (result.0 ≡ Status.BadWords) ↔ (command_of (map string_bytes words.now) ≡ None) }
    ensures bad_words_write { result.0 ≡ Status.BadWords → TookWhatItCould (K.taken sink.old) (K.taken sink.new) (K.faults sink.old) (K.faults sink.new) usage }
    ensures bad_words_read { result.0 ≡ Status.BadWords → (R.left source.new ≡ R.left source.old) × (R.faults source.new ≡ R.faults source.old) }
    ensures done { result.0 ≡ Status.Done → SaysDone (command_of (map string_bytes words.now)) (R.left source.old) (K.taken sink.old) (K.taken sink.new)
        (tally (P.faults spawner.old) (P.started spawner.old) (P.carried spawner.old)) (tally (P.faults spawner.new) (P.started spawner.new) (P.carried spawner.new)) result.1 }
    ensures not_built { result.0 ≡ Status.NotBuilt → SaysNotBuilt (command_of (map string_bytes words.now)) (R.left source.old) × (K.taken sink.new ≡ K.taken sink.old) }
    ensures stuck { result.0 ≡ Status.Stuck → SaysStuck (command_of (map string_bytes words.now)) (R.left source.old) (K.taken sink.old) (K.taken sink.new) (K.faults sink.old) (K.faults sink.new) }
    ensures illegal { result.0 ≡ Status.Illegal → SaysIllegal (command_of (map string_bytes words.now)) (R.left source.old) (K.taken sink.old) (K.taken sink.new) (K.faults sink.old) (K.faults sink.new) }
    ensures bad_scenario { result.0 ≡ Status.BadScenario → SaysBadScenario (command_of (map string_bytes words.now)) (R.left source.old) (K.taken sink.old) (K.taken sink.new) (K.faults sink.old) (K.faults sink.new) }
    ensures read_fault { result.0 ≡ Status.ReadFault → Rose (R.faults source.old) (R.faults source.new) × (K.taken sink.new ≡ K.taken sink.old) }
    ensures write_fault { result.0 ≡ Status.WriteFault → SaysWriteFault (command_of (map string_bytes words.now)) (R.left source.old) (K.taken sink.old) (K.taken sink.new) (K.faults sink.old) (K.faults sink.new)
        (tally (P.faults spawner.old) (P.started spawner.old) (P.carried spawner.old)) (tally (P.faults spawner.new) (P.started spawner.new) (P.carried spawner.new)) }
    ensures no_memory { result.0 ≡ Status.NoMemory → K.taken sink.new ≡ K.taken sink.old }
    ensures no_fronts { result.0 ≢ Status.Done → result.1 ≡ None }
    ensures starts_none { is_before_starts result.0 ≡ true → spawner.new ≡ spawner.old }
    ensures joined { AreJoined (P.started spawner.old) (P.joined spawner.old) (P.started spawner.new) (P.joined spawner.new) }
    ensures others_fronts { (command_of (map string_bytes words.now)) ≢ Some commands.Run → result.1 ≡ None }
    ensures others_start_none { (command_of (map string_bytes words.now)) ≢ Some commands.Run → spawner.new ≡ spawner.old }
    ensures reads_none { reads_nothing (command_of (map string_bytes words.now)) ≡ true → source.new ≡ source.old }

    // It gives up for no other cause.
    ensures complete { (Rose (R.faults source.old) (R.faults source.new) → ⊥) → (Rose (K.faults sink.old) (K.faults sink.new) → ⊥)
        → Completes (command_of (map string_bytes words.now)) (R.left source.old) result.0 }
    ensures complete_unbuilt { (Rose (R.faults source.old) (R.faults source.new) → ⊥) → CompletesOnUnbuilt (command_of (map string_bytes words.now)) (R.left source.old) result.0 }
    ensures complete_fault { (Rose (R.faults source.old) (R.faults source.new) → ⊥) → CompletesOnFault (command_of (map string_bytes words.now)) (R.left source.old) result.0 }
{
    match Command::from_words(alloc, words) {
        Ok(Some(command)) => do_command(rt, alloc, command, source, sink, spawner),
        Ok(None) => {
            write_all(sink, USAGE);
            (Status::BadWords, None)
        }
        Err(NoMemory) => (Status::NoMemory, None),
    }
}
