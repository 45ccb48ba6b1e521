//! Tests of the program's commands: worked rows of bytes, forged records, and sides that fail.
#![tactic(auto)]

#[cfg(test)]
mod forged;
#[cfg(test)]
mod made;
#[cfg(test)]
mod making_tests;
#[cfg(test)]
mod racing_tests;
#[cfg(test)]
mod rows;
#[cfg(test)]
mod running_tests;
#[cfg(test)]
mod tests;
