ghost use Rattle.std.specs.Prelude.{◌≡◌, ◌≢◌, IfOk};
ghost use Rattle.cx_io.specs.Edge.{Rose};
ghost use Rattle.cx_commands.specs.Top.{limit, IsReplayed, IsStuck, IsFaulty, Took, TookFront, TookWhatItCould, OfRead};
ghost use Rattle.cx_commands.specs.Answers.{AnswersScenario, AnswersText};
ghost use Rattle.cx_commands.specs.Complete.{CompletesReplay, CompletesFault};

use crate::fault_line::fault_line;
use crate::status::Status;
use cx_io::{ReadFail, Sink, Source, read_all, write_all};
use cx_names::NoMemory;
use cx_record::print;
use cx_replay::{Replayed, replay};
use cx_scenario::{ReadErr, Scenario, read};
use std::alloc::Global;

/// How many bytes a scenario's text has at most.
const LIMIT: usize = 8_388_608;

/// What is to be written of a text, and why.
#[derive(Drop)]
enum Answer {
    /// The replay ended.
    Ended(Vec<u8>),
    /// The replay got stuck.
    Stuck(Vec<u8>),
    /// The text is no scenario.
    Faulty(Vec<u8>),
}

/// Replays a scenario.
fn replay_scenario(
    alloc: Global,
    seed: Option<u64>,
    scenario: &Scenario,
) -> Result<Answer, NoMemory>
    ensures { IfOk result (λ answer. AnswersScenario answer seed scenario.now) }
{
    match replay(alloc, scenario, seed)? {
        Replayed::Ended(record) => {
            let none_live = cx_record::Threads {
                threads: Vec::new(alloc),
            };
            let text = print(alloc, scenario, &record, &none_live)?;
            Ok(Answer::Ended(text))
        }
        Replayed::Stuck(record, live) => {
            let text = print(alloc, scenario, &record, &live)?;
            Ok(Answer::Stuck(text))
        }
    }
}

/// Reads a text and replays its scenario.
fn replay_text(alloc: Global, seed: Option<u64>, bytes: &[u8]) -> Result<Answer, NoMemory>
    ensures { IfOk result (λ answer. AnswersText answer seed bytes.now) }
{
    match read(alloc, bytes) {
        Ok(scenario) => replay_scenario(alloc, seed, &scenario),
        Err(ReadErr::NoMemory) => Err(NoMemory),
        Err(ReadErr::Bad(fault)) => {
            let line = fault_line(alloc, fault)?;
            Ok(Answer::Faulty(line))
        }
    }
}

/// Replays what the source has; all of the contract but what must succeed.
fn replay_source<R: Source, K: Sink>(
    alloc: Global,
    seed: Option<u64>,
    source: &mut R,
    sink: &mut K,
) -> Status
    ensures done { result ≡ Status.Done → OfRead limit (R.left source.old) (IsReplayed seed) (Took (K.taken sink.old) (K.taken sink.new)) }
    ensures stuck { result ≡ Status.Stuck → OfRead limit (R.left source.old) (IsStuck seed)
        (TookWhatItCould (K.taken sink.old) (K.taken sink.new) (K.faults sink.old) (K.faults sink.new)) }
    ensures bad_scenario { result ≡ Status.BadScenario → OfRead limit (R.left source.old) IsFaulty
        (TookWhatItCould (K.taken sink.old) (K.taken sink.new) (K.faults sink.old) (K.faults sink.new)) }
    ensures read_fault { result ≡ Status.ReadFault → Rose (R.faults source.old) (R.faults source.new) × (K.taken sink.new ≡ K.taken sink.old) }
    ensures write_fault { result ≡ Status.WriteFault → Rose (K.faults sink.old) (K.faults sink.new)
        × OfRead limit (R.left source.old) (IsReplayed seed) (TookFront (K.taken sink.old) (K.taken sink.new)) }
    ensures no_memory { result ≡ Status.NoMemory → K.taken sink.new ≡ K.taken sink.old }
    ensures no_bad_words { result ≢ Status.BadWords }
    ensures no_illegal { result ≢ Status.Illegal }
    ensures no_not_built { result ≢ Status.NotBuilt }
{
    let bytes = match read_all(alloc, source, LIMIT) {
        Ok(bytes) => bytes,
        Err(ReadFail::Failed) => return Status::ReadFault,
        Err(ReadFail::NoMemory) => return Status::NoMemory,
    };
    let answer = match replay_text(alloc, seed, &bytes) {
        Ok(answer) => answer,
        Err(NoMemory) => return Status::NoMemory,
    };
    match answer {
        Answer::Ended(text) => {
            let whole = write_all(sink, &text);
            if whole {
                Status::Done
            } else {
                Status::WriteFault
            }
        }
        Answer::Stuck(text) => {
            write_all(sink, &text);
            Status::Stuck
        }
        Answer::Faulty(text) => {
            write_all(sink, &text);
            Status::BadScenario
        }
    }
}

/// Replays the scenario that the source has, and writes its canonical text and the record.
///
/// Without a seed the first enabled thread goes on at each turn; with a seed the choice is drawn from SplitMix64.
/// It reads to the end, or to one byte past 8,388,608, and writes nothing before the replay is over.
///
/// - `Done`: the replay ended, and all was written.
/// - `Stuck`: threads were live and none could go on. The record so far was written, and a line for each live thread.
/// - `BadScenario`: the text is no scenario. `fault LINE KIND` names its first fault.
/// - `ReadFault`, `WriteFault`: the source or the sink failed.
/// - `NoMemory`: memory ran out, and nothing was written.
pub fn replay_call<R: Source, K: Sink>(
    alloc: Global,
    seed: Option<u64>,
    source: &mut R,
    sink: &mut K,
) -> Status
    ensures done { result ≡ Status.Done → OfRead limit (R.left source.old) (IsReplayed seed) (Took (K.taken sink.old) (K.taken sink.new)) }
    ensures stuck { result ≡ Status.Stuck → OfRead limit (R.left source.old) (IsStuck seed)
        (TookWhatItCould (K.taken sink.old) (K.taken sink.new) (K.faults sink.old) (K.faults sink.new)) }
    ensures bad_scenario { result ≡ Status.BadScenario → OfRead limit (R.left source.old) IsFaulty
        (TookWhatItCould (K.taken sink.old) (K.taken sink.new) (K.faults sink.old) (K.faults sink.new)) }
    ensures read_fault { result ≡ Status.ReadFault → Rose (R.faults source.old) (R.faults source.new) × (K.taken sink.new ≡ K.taken sink.old) }
    ensures write_fault { result ≡ Status.WriteFault → Rose (K.faults sink.old) (K.faults sink.new)
        × OfRead limit (R.left source.old) (IsReplayed seed) (TookFront (K.taken sink.old) (K.taken sink.new)) }
    ensures no_memory { result ≡ Status.NoMemory → K.taken sink.new ≡ K.taken sink.old }
    ensures no_bad_words { result ≢ Status.BadWords }
    ensures no_illegal { result ≢ Status.Illegal }
    ensures no_not_built { result ≢ Status.NotBuilt }

    // It gives up for no other cause.
    ensures complete { (Rose (R.faults source.old) (R.faults source.new) → ⊥) → (Rose (K.faults sink.old) (K.faults sink.new) → ⊥)
        → CompletesReplay seed (R.left source.old) result }
    ensures complete_fault { (Rose (R.faults source.old) (R.faults source.new) → ⊥) → CompletesFault (R.left source.old) result }
{
    replay_source(alloc, seed, source, sink)
}
