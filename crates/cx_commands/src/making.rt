ghost use Rattle.std.specs.Prelude.{◌≡◌, ◌≤◌, ◌⊎◌, true, IfOk};
ghost use Rattle.cx_io.specs.Edge.{Rose};
ghost use Rattle.cx_commands.specs.Top.{Took, TookFront};
ghost use Rattle.cx_commands.specs.Making.{Made, IsMade, is_of_make};

use crate::status::Status;
use cx_io::{Sink, write_all};
use cx_names::NoMemory;
use cx_scenario::make;
use std::alloc::Global;

/// The text of the scenario of so many items.
#[tactic(auto, using(crate::proofs::Made::made_is))]
fn made_text(alloc: Global, items: u32) -> Result<Vec<u8>, NoMemory>
    requires some { 1 ≤ items }
    requires few { items ≤ 4800 }
    ensures { IfOk result (λ text. IsMade items text.items) }
{
    let scenario = make(alloc, items)?;
    let text = scenario.write(alloc)?;
    Ok(text)
}

/// Writes the scenario of so many items, from 1 to 4,800, that go through a bounded buffer, with producers, consumers and a
/// watcher.
///
/// - `Done`: all was written.
/// - `WriteFault`: the sink failed.
/// - `NoMemory`: memory ran out, and nothing was written.
pub fn make_call<K: Sink>(alloc: Global, items: u32, sink: &mut K) -> Status
    requires some { 1 ≤ items }
    requires few { items ≤ 4800 }
    ensures done { result ≡ Status.Done → Made items (Took (K.taken sink.old) (K.taken sink.new)) }
    ensures write_fault { result ≡ Status.WriteFault → Rose (K.faults sink.old) (K.faults sink.new) × Made items (TookFront (K.taken sink.old) (K.taken sink.new)) }
    ensures no_memory { result ≡ Status.NoMemory → K.taken sink.new ≡ K.taken sink.old }
    ensures no_other { is_of_make result ≡ true }

    // It gives up for no other cause.
    ensures complete { (Rose (K.faults sink.old) (K.faults sink.new) → ⊥) → (result ≡ Status.Done) ⊎ (result ≡ Status.NoMemory) }
{
    match made_text(alloc, items) {
        Ok(text) => {
            let whole = write_all(sink, &text);
            if whole {
                Status::Done
            } else {
                Status::WriteFault
            }
        }
        Err(NoMemory) => Status::NoMemory,
    }
}
