ghost use Rattle.std.specs.Prelude.{◌≡◌, ◌≢◌, ◌≤◌, IfOk};
ghost use Rattle.cx_io.specs.Edge.{Rose};
ghost use Rattle.cx_script.specs.Script.{Script as ScriptSeen};
ghost use Rattle.cx_script.specs.Numbered.{numbered};
ghost use Rattle.cx_scenario.specs.Front.{IsFront};
ghost use Rattle.cx_history.specs.Histories.{Recorded};
ghost use Rattle.cx_history.specs.IsRecord.{IsRecord};
ghost use Rattle.cx_history.specs.Views.{recorded_of};
ghost use Rattle.cx_order.specs.Order.{IsOrderOf};
ghost use Rattle.cx_races.specs.Races.{AreAccesses};
ghost use Rattle.cx_commands.specs.Top.{Took, TookFront, TookWhatItCould, OfRead};
ghost use Rattle.cx_commands.specs.Findings.{IsFlawless};
ghost use Rattle.cx_commands.specs.Racing.{races_limit, IsReportText, IsFoundReport, IsFoundWrong, IsFoundFault, CompletesRaces, CompletesRacesFault};
ghost use Rattle.cx_commands.specs.RacesFound.{FindsOrder, FindsJudged, FindsAccesses, FindsRaces};

use crate::checking::behind;
use crate::fault_line::fault_line;
use crate::flaw_line::flaw_line;
use crate::status::Status;
use cx_accesses::{Accesses, parse_accesses, parse_part};
use cx_io::{ReadFail, Sink, Source, read_all, write_all};
use cx_names::NoMemory;
use cx_order::{Order, Ordered, order_of};
use cx_races::{cycle_line, report, report_text};
use cx_record::{Record, Verdict, check};
use cx_scenario::{ReadErr, Scenario, read_part};
use std::alloc::Global;

/// How many bytes a scenario, its record and the accesses have at most.
const INPUT_LIMIT: usize = 16_777_216;

/// What a race report finds, and what is to be written.
#[derive(Drop)]
pub(crate) enum Racing {
    /// For each variable that it is free, or two accesses that race.
    Reported(Vec<u8>),
    /// A point of the record reaches itself.
    Cyclic(Vec<u8>),
    /// The record has a flaw.
    Illegal(Vec<u8>),
    /// The text has a fault.
    Faulty(Vec<u8>),
}

/// A number of variables as one of 32 bits; more don't fit any memory.
fn number_of(variables: usize) -> Result<u32, NoMemory>
    ensures { IfOk result (λ n. n ≡ variables) }
{
    u32::try_from(variables).ok().ok_or(NoMemory)
}

/// The report of accesses, by the order of the record that they are of.
fn report_by(alloc: Global, order: &Order, accesses: &Accesses) -> Result<Vec<u8>, NoMemory>
    ensures { IfOk result (λ text. (s : ScriptSeen) (r : Recorded) → IsOrderOf (numbered s) r order.now → AreAccesses r accesses.now.accesses.items
        → IsReportText s r accesses.now.accesses.items accesses.now.names text.items) }
{
    let names = accesses.names.names();
    let variables = number_of(names.len())?;
    let entries = report(alloc, order, &accesses.accesses, variables)?;
    let text = report_text(alloc, names, &entries)?;
    Ok(text)
}

/// Reports on accesses to a record that is legal and follows its scenario.
fn report_on(
    alloc: Global,
    scenario: &Scenario,
    recorded: &Record,
    accesses: &Accesses,
) -> Result<Racing, NoMemory>
    requires well_formed { IsRecord (numbered scenario.now) (recorded_of recorded.now) }
    requires flawless { IsFlawless scenario.now (recorded_of recorded.now) }
    requires points { AreAccesses (recorded_of recorded.now) accesses.now.accesses.items }
    ensures { IfOk result (λ found. FindsOrder found scenario.now (recorded_of recorded.now) accesses.now.accesses.items accesses.now.names) }
{
    let ordered = order_of(alloc, scenario.plan(), recorded)?;
    match ordered {
        Ordered::Cycle { thread, point } => {
            let line = cycle_line(alloc, scenario.thread_name(thread), point)?;
            Ok(Racing::Cyclic(line))
        }
        Ordered::Order(order) => {
            let text = report_by(alloc, &order, accesses)?;
            Ok(Racing::Reported(text))
        }
    }
}

/// Checks a record, and reports on accesses to it.
fn judge(
    alloc: Global,
    scenario: &Scenario,
    recorded: &Record,
    accesses: &Accesses,
) -> Result<Racing, NoMemory>
    requires well_formed { IsRecord (numbered scenario.now) (recorded_of recorded.now) }
    requires points { AreAccesses (recorded_of recorded.now) accesses.now.accesses.items }
    ensures { IfOk result (λ found. FindsJudged found scenario.now (recorded_of recorded.now) accesses.now.accesses.items accesses.now.names) }
{
    match check(alloc, scenario, recorded)? {
        Verdict::Legal => report_on(alloc, scenario, recorded, accesses),
        Verdict::Illegal {
            thread,
            item,
            cause,
        } => {
            let line = flaw_line(alloc, scenario.thread_name(thread), item, cause)?;
            Ok(Racing::Illegal(line))
        }
    }
}

/// Reads the accesses behind a record, and reports on them.
fn race_accesses(
    alloc: Global,
    scenario: &Scenario,
    recorded: &Record,
    rest: &[u8],
    first_line: u32,
    room: usize,
) -> Result<Racing, NoMemory>
    requires well_formed { IsRecord (numbered scenario.now) (recorded_of recorded.now) }
    requires room { room ≤ 1073741824 }
    ensures { IfOk result (λ found. FindsAccesses found scenario.now (recorded_of recorded.now) first_line room rest.now) }
{
    match parse_accesses(alloc, scenario, recorded, rest, first_line, room) {
        Ok(accesses) => judge(alloc, scenario, recorded, &accesses),
        Err(ReadErr::NoMemory) => Err(NoMemory),
        Err(ReadErr::Bad(fault)) => {
            let line = fault_line(alloc, fault)?;
            Ok(Racing::Faulty(line))
        }
    }
}

/// Reads the record behind a scenario, which is the front of a text, and what stands behind the record.
fn race_rest(
    alloc: Global,
    scenario: &Scenario,
    text: &[u8],
    len: usize,
    next: u32,
) -> Result<Racing, NoMemory>
    requires front { IsFront races_limit text.now scenario.now len next }
    ensures { IfOk result (λ found. FindsRaces found text.now) }
{
    let room = INPUT_LIMIT.saturating_sub(len);
    let rest = behind(text, len);
    match parse_part(alloc, scenario, rest, next, room) {
        Ok((recorded, used, after)) => {
            let left = room.saturating_sub(used);
            race_accesses(alloc, scenario, &recorded, behind(rest, used), after, left)
        }
        Err(ReadErr::NoMemory) => Err(NoMemory),
        Err(ReadErr::Bad(fault)) => {
            let line = fault_line(alloc, fault)?;
            Ok(Racing::Faulty(line))
        }
    }
}

/// Reads a scenario, its record and accesses, and reports on them.
fn race_text(alloc: Global, bytes: &[u8]) -> Result<Racing, NoMemory>
    ensures { IfOk result (λ found. FindsRaces found bytes.now) }
{
    match read_part(alloc, bytes, INPUT_LIMIT) {
        Ok((scenario, len, next)) => race_rest(alloc, &scenario, bytes, len, next),
        Err(ReadErr::NoMemory) => Err(NoMemory),
        Err(ReadErr::Bad(fault)) => {
            let line = fault_line(alloc, fault)?;
            Ok(Racing::Faulty(line))
        }
    }
}

/// Reports on what the source has; all of the contract but what must succeed.
fn race_source<R: Source, K: Sink>(alloc: Global, source: &mut R, sink: &mut K) -> Status
    ensures done { result ≡ Status.Done → OfRead races_limit (R.left source.old) IsFoundReport (Took (K.taken sink.old) (K.taken sink.new)) }
    ensures illegal { result ≡ Status.Illegal → OfRead races_limit (R.left source.old) IsFoundWrong
        (TookWhatItCould (K.taken sink.old) (K.taken sink.new) (K.faults sink.old) (K.faults sink.new)) }
    ensures bad_scenario { result ≡ Status.BadScenario → OfRead races_limit (R.left source.old) IsFoundFault
        (TookWhatItCould (K.taken sink.old) (K.taken sink.new) (K.faults sink.old) (K.faults sink.new)) }
    ensures read_fault { result ≡ Status.ReadFault → Rose (R.faults source.old) (R.faults source.new) × (K.taken sink.new ≡ K.taken sink.old) }
    ensures write_fault { result ≡ Status.WriteFault → Rose (K.faults sink.old) (K.faults sink.new)
        × OfRead races_limit (R.left source.old) IsFoundReport (TookFront (K.taken sink.old) (K.taken sink.new)) }
    ensures no_memory { result ≡ Status.NoMemory → K.taken sink.new ≡ K.taken sink.old }
    ensures no_bad_words { result ≢ Status.BadWords }
    ensures no_stuck { result ≢ Status.Stuck }
    ensures no_not_built { result ≢ Status.NotBuilt }
{
    let bytes = match read_all(alloc, source, INPUT_LIMIT) {
        Ok(bytes) => bytes,
        Err(ReadFail::Failed) => return Status::ReadFault,
        Err(ReadFail::NoMemory) => return Status::NoMemory,
    };
    let found = match race_text(alloc, &bytes) {
        Ok(found) => found,
        Err(NoMemory) => return Status::NoMemory,
    };
    match found {
        Racing::Reported(text) => {
            let whole = write_all(sink, &text);
            if whole {
                Status::Done
            } else {
                Status::WriteFault
            }
        }
        Racing::Cyclic(line) => {
            write_all(sink, &line);
            Status::Illegal
        }
        Racing::Illegal(line) => {
            write_all(sink, &line);
            Status::Illegal
        }
        Racing::Faulty(line) => {
            write_all(sink, &line);
            Status::BadScenario
        }
    }
}

/// Reads a scenario, a record of it and accesses to plain variables that the source has, and writes which of these race.
///
/// It reads to the end, or to one byte past 16,777,216, and writes nothing before the report is known.
///
/// - `Done`: the record is legal, follows the scenario and has no cycle; `free VAR` or `race VAR A B` was written for each
///   variable. Two accesses race where neither happens before the other [intro.races].
/// - `Illegal`: it isn't legal or doesn't follow, and `illegal THREAD ITEM CAUSE` names its first flaw; or else a point
///   reaches itself, and `cycle THREAD POINT` names the least.
/// - `BadScenario`: the text is no scenario with its record and accesses. `fault LINE KIND` names its first fault.
/// - `ReadFault`, `WriteFault`: the source or the sink failed.
/// - `NoMemory`: memory ran out, and nothing was written.
pub fn races_call<R: Source, K: Sink>(alloc: Global, source: &mut R, sink: &mut K) -> Status
    ensures done { result ≡ Status.Done → OfRead races_limit (R.left source.old) IsFoundReport (Took (K.taken sink.old) (K.taken sink.new)) }
    ensures illegal { result ≡ Status.Illegal → OfRead races_limit (R.left source.old) IsFoundWrong
        (TookWhatItCould (K.taken sink.old) (K.taken sink.new) (K.faults sink.old) (K.faults sink.new)) }
    ensures bad_scenario { result ≡ Status.BadScenario → OfRead races_limit (R.left source.old) IsFoundFault
        (TookWhatItCould (K.taken sink.old) (K.taken sink.new) (K.faults sink.old) (K.faults sink.new)) }
    ensures read_fault { result ≡ Status.ReadFault → Rose (R.faults source.old) (R.faults source.new) × (K.taken sink.new ≡ K.taken sink.old) }
    ensures write_fault { result ≡ Status.WriteFault → Rose (K.faults sink.old) (K.faults sink.new)
        × OfRead races_limit (R.left source.old) IsFoundReport (TookFront (K.taken sink.old) (K.taken sink.new)) }
    ensures no_memory { result ≡ Status.NoMemory → K.taken sink.new ≡ K.taken sink.old }
    ensures no_bad_words { result ≢ Status.BadWords }
    ensures no_stuck { result ≢ Status.Stuck }
    ensures no_not_built { result ≢ Status.NotBuilt }

    // It gives up for no other cause.
    ensures complete { (Rose (R.faults source.old) (R.faults source.new) → ⊥) → (Rose (K.faults sink.old) (K.faults sink.new) → ⊥)
        → CompletesRaces (R.left source.old) result }
    ensures complete_fault { (Rose (R.faults source.old) (R.faults source.new) → ⊥) → CompletesRacesFault (R.left source.old) result }
{
    race_source(alloc, source, sink)
}
