//! Tests of conditions by their public calls.
#![tactic(auto)]

#[cfg(test)]
mod acts;
#[cfg(test)]
mod handing;
#[cfg(test)]
mod until;
#[cfg(test)]
mod waiting;
