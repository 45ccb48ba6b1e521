//! A caller's token on one barrier.
ghost use Rattle.std.specs.Prelude.{◌≡◌, Some, IsSome};

use cx_machine::BarrierMachine;
use cx_names::ThreadNo;
use cx_turn::Pass;

/// A caller's token on one barrier: a pass, and the phase of its last arrival.
#[derive(Drop)]
pub struct BarrierPass {
    pub(crate) pass: Pass<BarrierMachine>,
    pub(crate) phase: Option<u32>,
}

impl BarrierPass {
    /// The number of the thread that the pass makes changes as.
    pub fn number(&self) -> ThreadNo
        ensures { result ≡ self.now.pass.number }
    {
        self.pass.number()
    }

    /// The length of the history last seen.
    pub fn len(&self) -> u32
        ensures { result ≡ self.now.pass.len }
    {
        self.pass.len()
    }

    /// How many changes the pass may still make.
    pub fn left(&self) -> u32
        ensures { result ≡ self.now.pass.left }
    {
        self.pass.left()
    }

    /// The phase in which the pass last arrived or dropped out. There is one.
    pub fn phase(&self) -> u32
        requires { IsSome self.now.phase }
        ensures { self.now.phase ≡ Some result }
    {
        match self.phase {
            Some(phase) => phase,
            None => unreachable!(),
        }
    }
}
