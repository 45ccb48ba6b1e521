//! A turn: a lock round the state of one object, with one counted history of the changes made under
//! it. The history stands in the proofs alone.
//!
//! - `Turn`: the lock. It is made with its first pass, and closed with it.
//! - `Pass`: a caller's token, which has seen a beginning of the history.
//! - `Note`: a part of a pass that goes from hand to hand.
//! - `Held`: the state of a turn that a pass has taken.
//! - `Made`: a change that is made in the state, and counted when the turn is given up.
//! - `Either`: what a call did that could make a change or a look.
//! - `Lockable`: a lock that a condition can wait with.
//! - `Board`, `Opening`, `TurnRule`, `Desk`, `View`, `Gone`: the table below, and what its seats know.
#![tactic(auto)]

mod cuts;
mod either;
mod held;
mod lend;
mod lockable;
mod pass;
mod plays;
mod rule;
mod steps;
mod turn;
mod view;
mod waits;

pub use either::Either;
pub use held::{Held, Made};
pub use lockable::Lockable;
pub use pass::{Note, Pass};
pub use rule::{Board, Opening, TurnRule};
pub use turn::Turn;
pub use view::{Desk, Gone, View};
