ghost use Rattle.std.specs.Prelude.{◌≡◌, IfOk};
ghost use Rattle.cx_script.specs.Numbered.{numbered};
ghost use Rattle.cx_history.specs.Flaw.{first_flaw};
ghost use Rattle.cx_history.specs.Views.{recorded_of};
ghost use Rattle.cx_checker.specs.Verdict.{flaw_in};

use cx_checker::{Verdict, check_record};
use cx_history::Record;
use cx_names::NoMemory;
use cx_scenario::Scenario;
use std::alloc::Global;

/// Checks a record of a scenario: `Legal` where it is legal and follows the scenario, and else
/// `Illegal` with its first flaw.
///
/// Errors: no memory.
pub fn check(alloc: Global, scenario: &Scenario, record: &Record) -> Result<Verdict, NoMemory>
    ensures { IfOk result (λ v. flaw_in v ≡ first_flaw (numbered scenario.now) (recorded_of record.now)) }
{
    let verdict = check_record(alloc, scenario.plan(), record)?;
    Ok(verdict)
}
