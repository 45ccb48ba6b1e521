ghost use Rattle.std.specs.Prelude.{◌≡◌, IfOk};
ghost use Rattle.cx_scene.specs.Scene.{scene_of};
ghost use Rattle.cx_history.specs.IsRecord.{IsRecord};
ghost use Rattle.cx_history.specs.Legal.{LegalRecord};
ghost use Rattle.cx_history.specs.Follows.{Follows};
ghost use Rattle.cx_history.specs.Views.{recorded_of};
ghost use Rattle.cx_order.specs.Order.{IsOrdered};

use crate::building::graph_of;
use crate::clocks::{clocks, first_cycle};
use crate::counting::completes;
use crate::firsts::firsts;
use crate::gives::hubs;
use crate::ordered::{Order, Ordered};
use crate::parts::Parts;
use cx_history::Record;
use cx_names::{NoMemory, ThreadNo};
use cx_scene::Plan;
use std::alloc::Global;

/// The order of a record that is well-formed, is legal and follows its plan: `Cycle` exactly where a point reaches itself, with the least such
/// point.
///
/// It takes time linear in the items for a fixed number of threads, but for the sorting of changes by object and position.
///
/// Errors: no memory.
pub fn order_of(alloc: Global, plan: &Plan, record: &Record) -> Result<Ordered, NoMemory>
    requires well_formed { IsRecord (scene_of plan.now) (recorded_of record.now) }
    requires legal { LegalRecord (scene_of plan.now) (recorded_of record.now) }
    requires follows { Follows (scene_of plan.now) (recorded_of record.now) }
    ensures { IfOk result (λ x. IsOrdered (scene_of plan.now) (recorded_of record.now) x) }
{
    let tally = completes(alloc, record)?;
    let firsts = firsts(alloc, record)?;
    let hubs = hubs(alloc, plan, record, &tally, &firsts)?;
    let base = firsts[record.lists.len()];
    let parts = Parts {
        record,
        tally: &tally,
        firsts: &firsts,
        hubs: &hubs,
        base,
    };
    let graph = graph_of(alloc, &parts)?;
    let clocks = clocks(alloc, &graph, &parts)?;
    let cycle = first_cycle(&clocks, &parts)?;
    match cycle {
        Some((thread, point)) => Ok(Ordered::Cycle {
            thread: ThreadNo(thread),
            point,
        }),
        None => Ok(Ordered::Order(Order { firsts, clocks })),
    }
}
