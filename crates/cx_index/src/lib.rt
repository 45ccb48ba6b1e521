//! Names in the order in which they were put in, each found by its bytes in logarithmic time.
//!
//! [`NameIndex`] is a list of names, which are lent to it. A name may stand in it twice: the first place counts.
#![tactic(auto)]

mod index;

pub use index::NameIndex;
