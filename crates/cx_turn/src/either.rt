//! What a call did that could do two things.
use cx_names::Reply;

/// What a call did that could make a change or a look.
#[derive(Clone, Copy, Debug, PartialEq, Eq)]
pub enum Either {
    /// It made the change, with this reply, at this position.
    Made(Reply, u32),
    /// It made the look, with this reply, at this stamp.
    Seen(Reply, u32),
}
