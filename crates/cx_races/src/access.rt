use cx_names::ThreadNo;

/// An access to a plain variable: it stands right before the item of this number in the list of its thread, or behind the last one.
#[derive(Clone, Copy)]
pub struct Access {
    pub thread: ThreadNo,
    pub point: u32,
    /// The number of the variable, in order of first accesses.
    pub var: u32,
    pub write: bool,
}
