//! Tests of the race report by the program's call: each edge of the table where it alone decides, a cycle, and each fault of the accesses.
#![tactic(auto)]

#[cfg(test)]
mod faulty;
#[cfg(test)]
mod rows;
#[cfg(test)]
mod tests;
