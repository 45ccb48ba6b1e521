use crate::rows::{
    BARRIER, ENDED_BY_ANY, FAULTY, ONCE, ONE_SEMAPHORE, READERS_MEET, REFUSED, TWO_THREADS,
    TWO_THREADS_MAIN, UNBUILT,
};
use crate::tests::{all_levels, answers, joined};
use cx_commands::{Status, check_call, run_call};
use cx_io::{Buffer, Bytes, Listed, Real, Sure, SureBuffer, SureBytes};
use cx_names::NoMemory;
use std::alloc::Global;
use std::sync::Wait;
use std::test::Fail;
use std::thread::Threads;

/// Whether a run of the text ends with this status, having written these two texts one after the other; and main's accesses
/// of so many objects are there exactly where it is done.
fn runs<T: Threads + Wait + Copy + Send + 'static>(
    rt: &T,
    alloc: Global,
    text: &[u8],
    wanted: Status,
    front: &[u8],
    rest: &[u8],
    objects: usize,
) -> Result<bool, NoMemory> {
    let mut source = SureBytes::new(text.to_vec(alloc)?, 100);
    let mut sink = SureBuffer::new(Vec::new(alloc), 100);
    let mut spawner = Sure::new(alloc);
    let (status, fronts) = run_call(rt, alloc, &mut source, &mut sink, &mut spawner);
    let written = joined(alloc, &[front, rest])?;
    let whole = match fronts {
        Some(fronts) => status == Status::Done && fronts.accesses.len() == objects,
        None => status != Status::Done,
    };
    Ok(whole && status == wanted && sink.bytes() == written.as_slice())
}

#[test]
fn worked_rows_are_run(rt: HostRuntime) -> Result<(), Fail> {
    let alloc = rt.alloc();
    for (row, objects) in ENDED_BY_ANY {
        assert!(rt;
            runs(
                &rt,
                alloc,
                row.scenario,
                Status::Done,
                row.scenario,
                row.record,
                *objects
            )?
        );
    }
    for (text, line) in FAULTY {
        assert!(rt; runs(&rt, alloc, text, Status::BadScenario, b"", line, 0)?);
    }
    let (scenario, record) = all_levels(alloc)?;
    assert!(rt; runs(&rt, alloc, &scenario, Status::Done, &scenario, &record, 1)?);
    Ok(())
}

#[test]
fn run_is_a_word(rt: HostRuntime) -> Result<(), Fail> {
    let alloc = rt.alloc();
    let run: &[&str] = &["run"];
    let row = ONE_SEMAPHORE;
    let written = joined(alloc, &[row.scenario, row.record])?;
    let text = row.scenario.to_vec(alloc)?;
    assert!(rt; answers(&rt, alloc, run, text, Status::Done, &written)?);
    let text = joined(alloc, &[b"cxthread 1\n", UNBUILT[0], b"main\nend\n"])?;
    assert!(rt; answers(&rt, alloc, run, text, Status::NotBuilt, b"")?);
    Ok(())
}

/// Whether each of so many runs of the scenario ends, with this front of its record, and is found legal.
fn are_legal<T: Threads + Wait + Copy + Send + 'static>(
    rt: &T,
    alloc: Global,
    scenario: &[u8],
    front: &[u8],
    runs: u32,
) -> Result<bool, NoMemory> {
    let front = joined(alloc, &[scenario, front])?;
    for _ in 0..runs {
        let mut source = SureBytes::new(scenario.to_vec(alloc)?, 100);
        let mut sink = SureBuffer::new(Vec::new(alloc), 100);
        let mut spawner = Real::new(alloc);
        let (status, _fronts) = run_call(rt, alloc, &mut source, &mut sink, &mut spawner);
        if status != Status::Done || !sink.bytes().starts_with(&front) {
            return Ok(false);
        }
        let mut source = SureBytes::new(sink.bytes().to_vec(alloc)?, 100);
        let mut sink = SureBuffer::new(Vec::new(alloc), 100);
        let status = check_call(alloc, &mut source, &mut sink);
        if status != Status::Done || sink.bytes() != b"legal\n".as_slice() {
            return Ok(false);
        }
    }
    Ok(true)
}

#[test]
fn a_run_of_two_threads_is_legal(rt: HostRuntime) -> Result<(), Fail> {
    let alloc = rt.alloc();
    assert!(rt; are_legal(&rt, alloc, TWO_THREADS.scenario, TWO_THREADS_MAIN, 20)?);
    Ok(())
}

#[test]
fn runs_with_a_once_flag_are_legal(rt: HostRuntime) -> Result<(), Fail> {
    let alloc = rt.alloc();
    assert!(rt; are_legal(&rt, alloc, ONCE.scenario, b"record 1\n", 100)?);
    Ok(())
}

#[test]
fn runs_with_a_barrier_are_legal(rt: HostRuntime) -> Result<(), Fail> {
    let alloc = rt.alloc();
    assert!(rt; are_legal(&rt, alloc, BARRIER.scenario, b"record 1\n", 100)?);
    Ok(())
}

#[test]
fn runs_of_readers_that_meet_are_legal(rt: HostRuntime) -> Result<(), Fail> {
    let alloc = rt.alloc();
    assert!(rt; are_legal(&rt, alloc, READERS_MEET, b"record 1\n", 20)?);
    Ok(())
}

#[test]
fn a_refused_start_is_recorded(rt: HostRuntime) -> Result<(), Fail> {
    let alloc = rt.alloc();
    let row = REFUSED;
    let mut source = SureBytes::new(row.scenario.to_vec(alloc)?, 100);
    let mut sink = SureBuffer::new(Vec::new(alloc), 100);
    let mut spawner = Listed::new(alloc, vec![in alloc; 2]?);
    let (status, fronts) = run_call(&rt, alloc, &mut source, &mut sink, &mut spawner);
    assert_eq!(rt; status, Status::Done);
    assert!(rt; fronts.is_some());
    let written = joined(alloc, &[row.scenario, row.record])?;
    assert_eq!(rt; sink.bytes(), written.as_slice());
    Ok(())
}

#[test]
fn runs_are_not_built_for_all(rt: HostRuntime) -> Result<(), Fail> {
    let alloc = rt.alloc();
    for declarations in UNBUILT {
        let text = joined(
            alloc,
            &[
                b"cxthread 1\nthread t\nsemaphore s 0 1\n",
                declarations,
                b"main\nend\n",
            ],
        )?;
        assert!(rt; runs(&rt, alloc, &text, Status::NotBuilt, b"", b"", 0)?);
    }
    Ok(())
}

#[test]
fn faults_of_the_sides_of_a_run(rt: HostRuntime) -> Result<(), Fail> {
    let alloc = rt.alloc();
    let text = ONE_SEMAPHORE.scenario;
    let mut spawner = Sure::new(alloc);
    let mut source = Bytes::new(text.to_vec(alloc)?, 100, vec![in alloc; 0]?);
    let mut sink = Buffer::new(Vec::new(alloc), 100, Vec::new(alloc));
    let (status, _fronts) = run_call(&rt, alloc, &mut source, &mut sink, &mut spawner);
    assert_eq!(rt; status, Status::ReadFault);
    assert_eq!(rt; sink.bytes().len(), 0);
    let mut source = Bytes::new(text.to_vec(alloc)?, 100, Vec::new(alloc));
    let mut sink = Buffer::new(Vec::new(alloc), 8, vec![in alloc; 1]?);
    let (status, fronts) = run_call(&rt, alloc, &mut source, &mut sink, &mut spawner);
    assert_eq!(rt; status, Status::WriteFault);
    assert_eq!(rt; sink.bytes(), b"cxthread".as_slice());
    assert!(rt; fronts.is_none());
    Ok(())
}
