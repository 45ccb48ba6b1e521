ghost use Rattle.std.specs.Prelude.{◌≡◌, ◌≢◌, ◌≤◌, IfOk, drop, length};
ghost use Rattle.cx_io.specs.Edge.{Rose};
ghost use Rattle.cx_script.specs.Numbered.{numbered};
ghost use Rattle.cx_history.specs.IsRecord.{IsRecord};
ghost use Rattle.cx_history.specs.Views.{recorded_of};
ghost use Rattle.cx_record.specs.Parsed.{AreShort};
ghost use Rattle.cx_commands.specs.Top.{Took, TookFront, TookWhatItCould, OfRead};
ghost use Rattle.cx_commands.specs.Checks.{input_limit, IsFoundLegal, IsFoundIllegal, IsFoundFaulty, CompletesCheck, CompletesCheckFault};
ghost use Rattle.cx_commands.specs.Findings.{FindsRecord, FindsRest, FindsText};

use crate::fault_line::fault_line;
use crate::flaw_line::flaw_line;
use crate::status::Status;
use cx_io::{ReadFail, Sink, Source, read_all, write_all};
use cx_names::NoMemory;
use cx_record::{Record, Verdict, check, parse};
use cx_scenario::{ReadErr, Scenario, read_part};
use std::alloc::Global;

/// How many bytes a scenario and its record have at most.
const INPUT_LIMIT: usize = 1_073_741_824;

/// What is written of a record that is legal and follows its scenario.
const LEGAL: &[u8] = b"legal\n";

/// What a check finds, and what is to be written.
#[derive(Drop)]
pub(crate) enum Finding {
    /// The record is legal and follows the scenario.
    Legal,
    /// The record has a flaw.
    Illegal(Vec<u8>),
    /// The text has a fault.
    Faulty(Vec<u8>),
}

/// Checks a record of a scenario.
fn check_record(alloc: Global, scenario: &Scenario, record: &Record) -> Result<Finding, NoMemory>
    requires well_formed { IsRecord (numbered scenario.now) (recorded_of record.now) }
    requires short { AreShort (recorded_of record.now) }
    ensures { IfOk result (λ finding. FindsRecord finding scenario.now (recorded_of record.now)) }
{
    match check(alloc, scenario, record)? {
        Verdict::Legal => Ok(Finding::Legal),
        Verdict::Illegal {
            thread,
            item,
            cause,
        } => {
            let line = flaw_line(alloc, scenario.thread_name(thread), item, cause)?;
            Ok(Finding::Illegal(line))
        }
    }
}

/// Reads the record behind a scenario, and checks it.
fn check_rest(
    alloc: Global,
    scenario: &Scenario,
    rest: &[u8],
    first_line: u32,
    room: usize,
) -> Result<Finding, NoMemory>
    requires room { room ≤ 1073741824 }
    requires first { first_line ≤ 2147483648 }
    ensures { IfOk result (λ finding. FindsRest finding scenario.now first_line room rest.now) }
{
    match parse(alloc, scenario, rest, first_line, room) {
        Ok(record) => check_record(alloc, scenario, &record),
        Err(ReadErr::NoMemory) => Err(NoMemory),
        Err(ReadErr::Bad(fault)) => {
            let line = fault_line(alloc, fault)?;
            Ok(Finding::Faulty(line))
        }
    }
}

/// What stands in a text behind so many bytes.
pub(crate) fn behind(text: &[u8], len: usize) -> &[u8]
    requires { len ≤ length text.now }
    ensures { result.now ≡ drop len text.now }
{
    let (_, rest) = text.split_at(len);
    rest
}

/// Reads a scenario and its record, and checks the record.
fn check_text(alloc: Global, bytes: &[u8]) -> Result<Finding, NoMemory>
    ensures { IfOk result (λ finding. FindsText finding bytes.now) }
{
    match read_part(alloc, bytes, 1_073_741_824) {
        Ok((scenario, len, next)) => {
            let room = 1_073_741_824usize.saturating_sub(len);
            let rest = behind(bytes, len);
            check_rest(alloc, &scenario, rest, next, room)
        }
        Err(ReadErr::NoMemory) => Err(NoMemory),
        Err(ReadErr::Bad(fault)) => {
            let line = fault_line(alloc, fault)?;
            Ok(Finding::Faulty(line))
        }
    }
}

/// Checks what the source has; all of the contract but what must succeed.
fn check_source<R: Source, K: Sink>(alloc: Global, source: &mut R, sink: &mut K) -> Status
    ensures done { result ≡ Status.Done → OfRead input_limit (R.left source.old) IsFoundLegal (Took (K.taken sink.old) (K.taken sink.new)) }
    ensures illegal { result ≡ Status.Illegal → OfRead input_limit (R.left source.old) IsFoundIllegal
        (TookWhatItCould (K.taken sink.old) (K.taken sink.new) (K.faults sink.old) (K.faults sink.new)) }
    ensures bad_scenario { result ≡ Status.BadScenario → OfRead input_limit (R.left source.old) IsFoundFaulty
        (TookWhatItCould (K.taken sink.old) (K.taken sink.new) (K.faults sink.old) (K.faults sink.new)) }
    ensures read_fault { result ≡ Status.ReadFault → Rose (R.faults source.old) (R.faults source.new) × (K.taken sink.new ≡ K.taken sink.old) }
    ensures write_fault { result ≡ Status.WriteFault → Rose (K.faults sink.old) (K.faults sink.new)
        × OfRead input_limit (R.left source.old) IsFoundLegal (TookFront (K.taken sink.old) (K.taken sink.new)) }
    ensures no_memory { result ≡ Status.NoMemory → K.taken sink.new ≡ K.taken sink.old }
    ensures no_bad_words { result ≢ Status.BadWords }
    ensures no_stuck { result ≢ Status.Stuck }
    ensures no_not_built { result ≢ Status.NotBuilt }
{
    let bytes = match read_all(alloc, source, INPUT_LIMIT) {
        Ok(bytes) => bytes,
        Err(ReadFail::Failed) => return Status::ReadFault,
        Err(ReadFail::NoMemory) => return Status::NoMemory,
    };
    let finding = match check_text(alloc, &bytes) {
        Ok(finding) => finding,
        Err(NoMemory) => return Status::NoMemory,
    };
    match finding {
        Finding::Legal => {
            let whole = write_all(sink, LEGAL);
            if whole {
                Status::Done
            } else {
                Status::WriteFault
            }
        }
        Finding::Illegal(line) => {
            write_all(sink, &line);
            Status::Illegal
        }
        Finding::Faulty(line) => {
            write_all(sink, &line);
            Status::BadScenario
        }
    }
}

/// Checks the scenario and the record that the source has, and writes what it finds.
///
/// It reads to the end, or to one byte past 1,073,741,824, and writes nothing before the verdict.
///
/// - `Done`: the record is legal and follows the scenario, and `legal` was written.
/// - `Illegal`: it isn't. `illegal THREAD ITEM CAUSE` names its first flaw.
/// - `BadScenario`: the text is no scenario with its record. `fault LINE KIND` names its first fault.
/// - `ReadFault`, `WriteFault`: the source or the sink failed.
/// - `NoMemory`: memory ran out, and nothing was written.
pub fn check_call<R: Source, K: Sink>(alloc: Global, source: &mut R, sink: &mut K) -> Status
    ensures done { result ≡ Status.Done → OfRead input_limit (R.left source.old) IsFoundLegal (Took (K.taken sink.old) (K.taken sink.new)) }
    ensures illegal { result ≡ Status.Illegal → OfRead input_limit (R.left source.old) IsFoundIllegal
        (TookWhatItCould (K.taken sink.old) (K.taken sink.new) (K.faults sink.old) (K.faults sink.new)) }
    ensures bad_scenario { result ≡ Status.BadScenario → OfRead input_limit (R.left source.old) IsFoundFaulty
        (TookWhatItCould (K.taken sink.old) (K.taken sink.new) (K.faults sink.old) (K.faults sink.new)) }
    ensures read_fault { result ≡ Status.ReadFault → Rose (R.faults source.old) (R.faults source.new) × (K.taken sink.new ≡ K.taken sink.old) }
    ensures write_fault { result ≡ Status.WriteFault → Rose (K.faults sink.old) (K.faults sink.new)
        × OfRead input_limit (R.left source.old) IsFoundLegal (TookFront (K.taken sink.old) (K.taken sink.new)) }
    ensures no_memory { result ≡ Status.NoMemory → K.taken sink.new ≡ K.taken sink.old }
    ensures no_bad_words { result ≢ Status.BadWords }
    ensures no_stuck { result ≢ Status.Stuck }
    ensures no_not_built { result ≢ Status.NotBuilt }

    // It gives up for no other cause.
    ensures complete { (Rose (R.faults source.old) (R.faults source.new) → ⊥) → (Rose (K.faults sink.old) (K.faults sink.new) → ⊥)
        → CompletesCheck (R.left source.old) result }
    ensures complete_fault { (Rose (R.faults source.old) (R.faults source.new) → ⊥) → CompletesCheckFault (R.left source.old) result }
{
    check_source(alloc, source, sink)
}
