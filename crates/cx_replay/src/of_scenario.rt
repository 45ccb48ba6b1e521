ghost use Rattle.std.specs.Prelude.{IfOk};
ghost use Rattle.cx_script.specs.Numbered.{numbered};
ghost use Rattle.cx_replay.specs.Standing.{IsReplayOf, IsRight, CanEndWhereStuck, IsWellFormed};

use crate::outcome::{Replayed, replay_plan};
use cx_names::NoMemory;
use cx_scenario::Scenario;
use std::alloc::Global;

/// Replays a scenario: at each turn one of the enabled threads makes its next step, until none is
/// enabled. Without a seed it is the one of the least number; with a seed the choice among several
/// is drawn from SplitMix64.
///
/// `Ended` where every thread that was started has ended, `Stuck` where some are still live. Each list
/// of a stuck record is a prefix of one that follows the scenario.
///
/// Errors: no memory.
pub fn replay(alloc: Global, scenario: &Scenario, seed: Option<u64>) -> Result<Replayed, NoMemory>
    ensures answer { IfOk result (λ r. IsReplayOf r (numbered scenario.now) seed) }
    ensures right { IfOk result (λ r. IsRight r (numbered scenario.now)) }
    ensures can_end { IfOk result (λ r. CanEndWhereStuck r (numbered scenario.now)) }
    ensures well_formed { IfOk result (λ r. IsWellFormed r (numbered scenario.now)) }
{
    let replayed = replay_plan(alloc, scenario.plan(), seed)?;
    Ok(replayed)
}
