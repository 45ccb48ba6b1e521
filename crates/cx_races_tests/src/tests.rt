use crate::faulty::{FAULTS, RECORDED};
use crate::rows::{COUNT_EDGES, CYCLE, HANDOFF, LEAST_PAIR, LOCK_EDGES, OTHER_EDGES, Row};
use cx_commands::{Status, races_call};
use cx_io::{SureBuffer, SureBytes};
use cx_names::NoMemory;
use std::alloc::Global;
use std::test::Fail;

/// Whether the race report of a text ends with this status, having written this.
fn reports(alloc: Global, text: Vec<u8>, wanted: Status, report: &[u8]) -> Result<bool, NoMemory> {
    let mut source = SureBytes::new(text, 100);
    let mut sink = SureBuffer::new(Vec::new(alloc), 100);
    let status = races_call(alloc, &mut source, &mut sink);
    Ok(status == wanted && sink.bytes() == report)
}

/// Whether the race report of a row ends with this status, having written what the row says.
fn answers(alloc: Global, row: Row, wanted: Status) -> Result<bool, NoMemory> {
    reports(alloc, row.text.to_vec(alloc)?, wanted, row.report)
}

/// A text in which one line stands so often between two others.
fn with_many(
    alloc: Global,
    front: &[u8],
    line: &[u8],
    count: u32,
    back: &[u8],
) -> Result<Vec<u8>, NoMemory> {
    let mut text = front.to_vec(alloc)?;
    for _ in 0..count {
        text.extend_from_slice(line)?;
    }
    text.extend_from_slice(back)?;
    Ok(text)
}

#[test]
fn each_edge_of_locks_alone_decides(rt: HostRuntime) -> Result<(), Fail> {
    for row in LOCK_EDGES {
        assert!(rt; answers(rt.alloc(), row, Status::Done)?);
    }
    Ok(())
}

#[test]
fn each_edge_of_counts_alone_decides(rt: HostRuntime) -> Result<(), Fail> {
    for row in COUNT_EDGES {
        assert!(rt; answers(rt.alloc(), row, Status::Done)?);
    }
    Ok(())
}

#[test]
fn each_other_edge_alone_decides(rt: HostRuntime) -> Result<(), Fail> {
    for row in OTHER_EDGES {
        assert!(rt; answers(rt.alloc(), row, Status::Done)?);
    }
    Ok(())
}

#[test]
fn mutexes_and_releases_order_accesses(rt: HostRuntime) -> Result<(), Fail> {
    assert!(rt; answers(rt.alloc(), HANDOFF, Status::Done)?);
    Ok(())
}

#[test]
fn the_least_pair_is_named(rt: HostRuntime) -> Result<(), Fail> {
    assert!(rt; answers(rt.alloc(), LEAST_PAIR, Status::Done)?);
    Ok(())
}

#[test]
fn a_cycle_is_named(rt: HostRuntime) -> Result<(), Fail> {
    assert!(rt; answers(rt.alloc(), CYCLE, Status::Illegal)?);
    Ok(())
}

#[test]
fn each_fault_is_named(rt: HostRuntime) -> Result<(), Fail> {
    for row in FAULTS {
        assert!(rt; answers(rt.alloc(), row, Status::BadScenario)?);
    }
    Ok(())
}

#[test]
fn accesses_have_a_limit(rt: HostRuntime) -> Result<(), Fail> {
    let alloc = rt.alloc();
    let mut front = RECORDED.to_vec(alloc)?;
    front.extend_from_slice(b"accesses 1\n")?;
    let line = b"a 0 x write\n";
    let most = with_many(alloc, &front, line, 4_096, b"done\n")?;
    assert!(rt; reports(alloc, most, Status::Done, b"free x\n")?);
    let more = with_many(alloc, &front, line, 4_096, b"c 0 x write\ndone\n")?;
    assert!(rt; reports(alloc, more, Status::BadScenario, b"fault 4125 TooMany\n")?);
    let bad = with_many(alloc, &front, line, 4_096, b"a 0 x wrote\ndone\n")?;
    assert!(rt; reports(alloc, bad, Status::BadScenario, b"fault 4125 BadWord\n")?);
    Ok(())
}

#[test]
fn items_have_a_limit(rt: HostRuntime) -> Result<(), Fail> {
    let alloc = rt.alloc();
    let front = b"cxthread 1\nmain\nend\nrecord 1\nacts main\n";
    let back = b"end\ndone\naccesses 1\ndone\n";
    let most = with_many(alloc, front, b"= ok\n", 65_536, back)?;
    assert!(rt; reports(alloc, most, Status::Illegal, b"illegal main 0 text\n")?);
    let more = with_many(alloc, front, b"= ok\n", 65_537, back)?;
    assert!(rt; reports(alloc, more, Status::BadScenario, b"fault 65542 TooMany\n")?);
    Ok(())
}
