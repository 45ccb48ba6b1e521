//! The least of runners.
ghost use Rattle.std.specs.Prelude.{ℕ};

use crate::action::Action;
use crate::pass::StopPass;
use crate::runs::Runs;
use std::sync::Wait;

/// Keeps the values of the callbacks that it is handed, and does nothing else, as long as there is memory.
#[derive(Drop)]
pub struct Keeper<C> {
    pub kept: Vec<C>,
}

impl<C: Action> Runs<C> for Keeper<C> {
    ghost use Rattle.std.specs.Prelude.{◌≡◌};

    ghost since = { λ r v q w. Unit {0} };

    ghost serves = { λ r i n. Unit {0} };

    fn run<R: Wait>(&mut self, rt: &R, at: &mut StopPass, id: u32, begin: u32, cb: C) {
        let _ = (id, begin);
        let _ = rt;
        let _full = self.kept.push(cb);
    }

    fn finished(&mut self, id: u32, finish: u32) {
        let _ = (id, finish);
    }

    ghost since_self = { λ r v w s. tt };

    ghost since_on = { λ a b c u v w s t. tt };
}
