ghost use Rattle.std.specs.Prelude.{◌≡◌, IfOk};
ghost use Rattle.cx_machine.specs.Registries.{registry_of};
ghost use Rattle.cx_machine.specs.Stop.{opening, registered_too};

use cx_machine::{Entry, Machine, Op, StopRegistry};
use cx_names::{NoMemory, Reply, ThreadNo};
use std::alloc::Global;

// A stop state with one source and one callback, which is 7.
fn registered(alloc: Global) -> Result<StopRegistry<u32>, NoMemory>
    ensures { IfOk result (λ s. registry_of s ≡ registered_too (opening 1) 3) }
{
    let mut state = StopRegistry::new(alloc, 1);
    state.reserve(1)?;
    let mut hand = Some(7);
    let entry = Entry {
        by: ThreadNo(0),
        op: Op::Register,
        a: 3,
        b: 0,
        reply: Reply::Ok,
    };
    state.make(&entry, &mut hand);
    Ok(state)
}

#[test]
fn a_value_goes_in_and_comes_out(rt: HostRuntime) -> Result<(), NoMemory> {
    let mut state = registered(rt.alloc())?;
    assert_eq!(rt; state.first_registered(), Some(3));
    assert_eq!(rt; state.debt(), 2);
    assert_eq!(rt; state.pool(), 1);
    assert_eq!(rt; state.most(256), 1_048_576);
    assert_eq!(rt; state.reply(ThreadNo(0), Op::Register, 3, 0), None);
    assert_eq!(rt;
        state.show(ThreadNo(0), Op::StopPossible, 0, 0),
        Some(Reply::True)
    );
    let removed = Some(Reply::Removed);
    let reply = state.reply(ThreadNo(0), Op::Deregister, 3, 0);
    assert_eq!(rt; reply, removed);
    let entry = Entry {
        by: ThreadNo(0),
        op: Op::Deregister,
        a: 3,
        b: 0,
        reply: Reply::Removed,
    };
    let mut hand = None;
    state.make(&entry, &mut hand);
    assert_eq!(rt; hand, Some(7));
    assert_eq!(rt; state.first_registered(), None);
    Ok(())
}
