ghost use Rattle.std.specs.Prelude.{◌≡◌, IfOk};
ghost use Rattle.std.specs.String.{string_bytes};

use crate::{NoMemory, Outcome, Reply};
use std::alloc::Global;

impl Reply {
    ghost use Rattle.cx_names.specs.Words.{reply_text, fixed_word};

    /// The reply as scenarios and records write it; `name` is the name of the thread, where the
    /// reply is a thread. It fails only where memory runs out.
    pub fn word(&self, alloc: Global, name: &str) -> Result<String, NoMemory>
        ensures { IfOk result (λ text. string_bytes text ≡ reply_text self.now name.now) }
    {
        let text = match *self {
            Reply::Number(n) => format!(in alloc; "{n}")?,
            Reply::Thread(_) => String::from_str(alloc, name)?,
            Reply::Threw(e) => format!(in alloc; "threw {e}")?,
            Reply::Outcome(Outcome::Value(v)) => format!(in alloc; "value {v}")?,
            Reply::Outcome(Outcome::Exception(e)) => format!(in alloc; "exception {e}")?,
            Reply::Outcome(Outcome::Broken) => String::from_str(alloc, "broken_promise")?,
            fixed => String::from_str(alloc, fixed.fixed_word())?,
        };
        Ok(text)
    }

    /// The word of a reply that has no number and no name.
    fn fixed_word(self) -> &'static str
        ensures { result.now ≡ fixed_word self }
    {
        match self {
            Reply::Ok => "ok",
            Reply::True => "true",
            Reply::False => "false",
            Reply::Over => "over",
            Reply::OverExpected => "over-expected",
            Reply::MaxLevels => "max-levels",
            Reply::Overflow => "overflow",
            Reply::Made => "made",
            Reply::Already => "already",
            Reply::Queued => "queued",
            Reply::Ran => "ran",
            Reply::Never => "never",
            Reply::Removed => "removed",
            Reply::Inside => "inside",
            Reply::NotHeld => "not-held",
            Reply::Returned => "returned",
            Reply::Passive => "passive",
            Reply::NoToken => "no-token",
            Reply::Spent => "spent",
            Reply::NoThread => "no-thread",
            Reply::Launched => "launched",
            Reply::Deferred => "deferred",
            Reply::Nobody => "none",
            Reply::NoState => "no_state",
            Reply::PromiseAlreadySatisfied => "promise_already_satisfied",
            Reply::FutureAlreadyRetrieved => "future_already_retrieved",
            Reply::OperationNotPermitted => "operation_not_permitted",
            Reply::ResourceDeadlockWouldOccur => "resource_deadlock_would_occur",
            Reply::InvalidArgument => "invalid_argument",
            _ => "",
        }
    }
}
