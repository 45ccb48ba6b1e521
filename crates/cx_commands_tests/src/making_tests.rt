ghost use Rattle.std.specs.Prelude.{◌≤◌};

use crate::made::{ONE_ITEM, THREE_ITEMS};
use crate::tests::answers;
use cx_commands::{Status, check_call, make_call, replay_call};
use cx_io::{Buffer, SureBuffer, SureBytes};
use std::alloc::Global;
use std::test::Fail;

/// Whether the scenario of so many items has this text.
fn makes(alloc: Global, items: u32, text: &[u8]) -> bool
    requires some { 1 ≤ items }
    requires few { items ≤ 4800 }
{
    let mut sink = SureBuffer::new(Vec::new(alloc), 100);
    let status = make_call(alloc, items, &mut sink);
    status == Status::Done && sink.bytes() == text
}

#[test]
fn scenarios_are_made(rt: HostRuntime) {
    let alloc = rt.alloc();
    assert!(rt; makes(alloc, 1, ONE_ITEM));
    assert!(rt; makes(alloc, 3, THREE_ITEMS));
}

#[test]
fn make_is_a_word(rt: HostRuntime) -> Result<(), Fail> {
    let alloc = rt.alloc();
    for number in ["3", "003", "00000000000000000003"] {
        let words: &[&str] = &["make", number];
        assert!(rt;
            answers(
                &rt,
                alloc,
                words,
                Vec::new(alloc),
                Status::Done,
                THREE_ITEMS
            )?
        );
    }
    Ok(())
}

#[test]
fn the_most_items_are_made(rt: HostRuntime) -> Result<(), Fail> {
    let alloc = rt.alloc();
    let mut sink = SureBuffer::new(Vec::new(alloc), 100_000);
    assert_eq!(rt; make_call(alloc, 4_800, &mut sink), Status::Done);
    let lines = sink.bytes().iter().filter(|byte| **byte == b'\n').count();
    assert_eq!(rt; lines, 52_894);
    Ok(())
}

#[test]
fn a_made_scenario_is_replayed_and_checked(rt: HostRuntime) -> Result<(), Fail> {
    let alloc = rt.alloc();
    let mut source = SureBytes::new(THREE_ITEMS.to_vec(alloc)?, 100);
    let mut sink = SureBuffer::new(Vec::new(alloc), 100);
    assert_eq!(rt;
        replay_call(alloc, Some(7), &mut source, &mut sink),
        Status::Done
    );
    let mut source = SureBytes::new(sink.bytes().to_vec(alloc)?, 100);
    let mut sink = SureBuffer::new(Vec::new(alloc), 100);
    assert_eq!(rt; check_call(alloc, &mut source, &mut sink), Status::Done);
    assert_eq!(rt; sink.bytes(), b"legal\n".as_slice());
    Ok(())
}

#[test]
fn a_fault_of_the_sink_of_make(rt: HostRuntime) -> Result<(), Fail> {
    let alloc = rt.alloc();
    let mut sink = Buffer::new(Vec::new(alloc), 8, vec![in alloc; 1]?);
    assert_eq!(rt; make_call(alloc, 1, &mut sink), Status::WriteFault);
    assert_eq!(rt; sink.bytes(), b"cxthread".as_slice());
    Ok(())
}
