//! Loops of calls, by which their time is taken.
//!
//! `cx_loops --list` writes a line for each loop: its name, how often it is run if nothing else is
//! asked for, its threads, and `solo` where one thread does all the work, else `many`.
//! `cx_loops NAME N THREADS` runs that loop N times, and writes its name, its threads, how often it was
//! run and how many nanoseconds that took. N is at most 100,000,000; of `semaphore_sleep` it is how
//! many milliseconds a caller sleeps. The exit status is 0, 2 where the words are others, 5 where
//! writing failed and 8 where there was no memory, no clock or no thread.
#![tactic(auto)]

ghost use Rattle.std.specs.Prelude.{◌≤◌};

mod barriers;
mod conditions;
mod flags;
mod latches;
mod mutexes;
mod semaphores;
mod shared_mutexes;
mod taken;
#[cfg(test)]
mod tests;
mod turns;

use std::alloc::Global;
use std::env;
use std::process::ExitCode;
use std::rt::Clock;
use std::sync::Wait;
use std::thread::Threads;
use taken::{Taken, Want};

const MOST: u32 = 100_000_000;

// What a loop does over and over.
#[derive(Clone, Copy)]
enum Work {
    Turn,
    Mutex,
    Race,
    Share,
    Semaphore,
    PingPong,
    Sleep,
    Latch,
    Phase,
    Done,
    HandOver,
    Notify,
    Get,
    Set,
}

// A loop: its name, how often it is run by default, and its threads.
#[derive(Clone, Copy)]
struct Row {
    work: Work,
    often: u32,
    threads: u32,
}

const ROWS: [Row; 16] = [
    Row {
        work: Work::Turn,
        often: 5_000_000,
        threads: 1,
    },
    Row {
        work: Work::Mutex,
        often: 5_000_000,
        threads: 1,
    },
    Row {
        work: Work::Race,
        often: 1_000_000,
        threads: 2,
    },
    Row {
        work: Work::Race,
        often: 1_000_000,
        threads: 4,
    },
    Row {
        work: Work::Share,
        often: 5_000_000,
        threads: 1,
    },
    Row {
        work: Work::Share,
        often: 1_000_000,
        threads: 4,
    },
    Row {
        work: Work::Semaphore,
        often: 5_000_000,
        threads: 1,
    },
    Row {
        work: Work::PingPong,
        often: 100_000,
        threads: 2,
    },
    Row {
        work: Work::Sleep,
        often: 1_000,
        threads: 2,
    },
    Row {
        work: Work::Latch,
        often: 5_000_000,
        threads: 1,
    },
    Row {
        work: Work::Phase,
        often: 50_000,
        threads: 4,
    },
    Row {
        work: Work::Done,
        often: 5_000_000,
        threads: 1,
    },
    Row {
        work: Work::HandOver,
        often: 100_000,
        threads: 2,
    },
    Row {
        work: Work::Notify,
        often: 5_000_000,
        threads: 1,
    },
    Row {
        work: Work::Get,
        often: 5_000_000,
        threads: 1,
    },
    Row {
        work: Work::Set,
        often: 5_000_000,
        threads: 1,
    },
];

impl Work {
    fn name(&self) -> &'static str {
        match self {
            Work::Turn => "turn_change",
            Work::Mutex => "mutex_lock_unlock",
            Work::Race => "mutex_contended",
            Work::Share => "shared_mutex_read",
            Work::Semaphore => "semaphore_release_acquire",
            Work::PingPong => "semaphore_pingpong",
            Work::Sleep => "semaphore_sleep",
            Work::Latch => "latch_count_down",
            Work::Phase => "barrier_phase",
            Work::Done => "call_once_passive",
            Work::HandOver => "condition_pingpong",
            Work::Notify => "notify_one_nobody",
            Work::Get => "mutex_get",
            Work::Set => "mutex_set",
        }
    }
}

// What the words ask for.
#[derive(Drop)]
enum Asked {
    List,
    Run(Row, u32),
    Other,
}

#[derive(Drop)]
enum Failed {
    Write,
    Want,
}

impl Failed {
    fn status(&self) -> u8 {
        match self {
            Failed::Write => 5,
            Failed::Want => 8,
        }
    }
}

fn row_of(name: &str, threads: u32) -> Option<Row> {
    for row in &ROWS {
        if row.work.name() == name && row.threads == threads {
            return Some(*row);
        }
    }
    None
}

fn read_words(words: &[String]) -> Asked {
    match words {
        [word] if word.as_str() == "--list" => Asked::List,
        [name, n, threads] => match (n.parse::<u32>(), threads.parse::<u32>()) {
            (Ok(n), Ok(threads)) => match row_of(name.as_str(), threads) {
                Some(row) => Asked::Run(row, n),
                None => Asked::Other,
            },
            _ => Asked::Other,
        },
        _ => Asked::Other,
    }
}

fn list<R: Print>(rt: &R) -> Result<(), Failed> {
    for row in &ROWS {
        let kind = if row.threads == 1 { "solo" } else { "many" };
        println!(rt; "{} {} {} {kind}", row.work.name(), row.often, row.threads).map_err(
            |_| Failed::Write,
        )?;
    }
    Ok(())
}

fn measure<R: Threads + Wait + Clock + Copy + Send + 'static>(
    rt: &R,
    alloc: Global,
    row: &Row,
    n: u32,
) -> Result<Taken, Want>
    requires { (1 ≤ n) × (n ≤ 100000000) }
{
    match row.work {
        Work::Turn => turns::alone(rt, alloc, n),
        Work::Mutex => mutexes::alone(rt, alloc, n),
        Work::Race => mutexes::together(rt, alloc, row.threads.max(1).min(64), n),
        Work::Share => shared_mutexes::read(rt, alloc, row.threads.max(1).min(64), n),
        Work::Semaphore => semaphores::alone(rt, alloc, n),
        Work::PingPong => semaphores::ping_pong(rt, alloc, n),
        Work::Sleep => semaphores::sleep(rt, alloc, n),
        Work::Latch => latches::alone(rt, alloc, n),
        Work::Phase => barriers::phases(
            rt,
            alloc,
            row.threads.max(1).min(64),
            n.min(barriers::MOST_PHASES),
        ),
        Work::Done => flags::done(rt, alloc, n),
        Work::HandOver => conditions::ping_pong(rt, alloc, n.min(conditions::MOST_HAND_OVERS)),
        Work::Notify => conditions::nobody(rt, alloc, n),
        Work::Get => conditions::gets(rt, alloc, n),
        Work::Set => conditions::sets(rt, alloc, n),
    }
}

fn run<R: Threads + Wait + Clock + Print + Copy + Send + 'static>(
    rt: &R,
    alloc: Global,
    row: &Row,
    n: u32,
) -> Result<(), Failed>
    requires { (1 ≤ n) × (n ≤ 100000000) }
{
    let Ok(taken) = measure(rt, alloc, row, n) else {
        return Err(Failed::Want);
    };
    let Taken { calls, time } = taken;
    println!(rt;
        "{} {} {calls} {}",
        row.work.name(),
        row.threads,
        time.as_nanos()
    )
    .map_err(|_| Failed::Write)
}

fn main(rt: HostRuntime) -> ExitCode {
    let mut words = Vec::new(rt.alloc());
    let Ok(args) = env::args(&rt) else {
        return ExitCode::from(2);
    };
    for word in args.skip(1) {
        match words.push(word) {
            Ok(()) => {}
            Err(_) => return ExitCode::from(8),
        }
    }
    let done = match read_words(&words) {
        Asked::List => list(&rt),
        Asked::Run(row, n) if 1 <= n && n <= MOST => run(&rt, rt.alloc(), &row, n),
        _ => return ExitCode::from(2),
    };
    match done {
        Ok(()) => ExitCode::from(0),
        Err(failed) => ExitCode::from(failed.status()),
    }
}
