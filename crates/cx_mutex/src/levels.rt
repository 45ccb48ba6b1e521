//! The levels that one thread has of a recursive mutex.
ghost use Rattle.std.specs.Prelude.{◌≡◌, ◌+◌, ◌<◌, IfSome, IfNone};

use crate::recursive::Level;
use cx_names::ThreadNo;

/// Levels of one thread on one recursive mutex, which are kept without memory for each.
#[derive(Drop, Debug, PartialEq, Eq)]
pub struct Levels {
    pub(crate) by: ThreadNo,
    pub(crate) count: u32,
}

impl Levels {
    /// No level of this thread.
    pub fn none(by: ThreadNo) -> Levels
        ensures { (result.by ≡ by) × (result.count ≡ 0) }
    {
        Levels { by, count: 0 }
    }

    /// How many there are.
    pub fn count(&self) -> u32
        ensures { result ≡ self.now.count }
    {
        self.count
    }

    /// Puts one more in.
    pub fn put(&mut self, level: Level)
        requires own { level.by ≡ self.old.by }
        requires room { self.old.count < 1000 }
        ensures { (self.new.by ≡ self.old.by) × (self.new.count ≡ self.old.count + 1) }
    {
        let _ = level;
        self.count += 1;
    }

    /// Takes one out. None exactly where there is none.
    pub fn take(&mut self) -> Option<Level>
        ensures by { self.new.by ≡ self.old.by }
        ensures none { IfNone result ((self.old.count ≡ 0) × (self.new.count ≡ 0)) }
        ensures some { IfSome result (λ l. (l.by ≡ self.old.by) × (self.old.count ≡ self.new.count + 1)) }
    {
        if self.count == 0 {
            return None;
        }
        self.count -= 1;
        Some(Level { by: self.by })
    }
}
