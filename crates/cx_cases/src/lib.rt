//! Cases of the definitions, each an equation that the prover computes: texts with their first fault or the scenario that they
//! mean, scenarios with their replays, records with their first flaw.
//!
//! Their values come from no code of this repository, so each change of a definition is judged by them. The texts, scenarios and
//! records stand in `specs/`, a file for each module here; the functions have no body.
#![tactic(auto)]

mod faults_1;
mod faults_2;
mod faults_3;
mod faults_4;
mod faults_5;
mod faults_6;
mod flawed_1;
mod flawed_2;
mod flawed_3;
mod flawed_4;
mod flawed_5;
mod legal_1;
mod legal_2;
mod meanings_1;
mod meanings_2;
mod replays_1;
mod replays_2;
mod replays_3;
mod seeded_1;
mod seeded_2;

pub use faults_1::faults_1_hold;
pub use faults_2::faults_2_hold;
pub use faults_3::faults_3_hold;
pub use faults_4::faults_4_hold;
pub use faults_5::faults_5_hold;
pub use faults_6::faults_6_hold;
pub use flawed_1::flawed_1_hold;
pub use flawed_2::flawed_2_hold;
pub use flawed_3::flawed_3_hold;
pub use flawed_4::flawed_4_hold;
pub use flawed_5::flawed_5_hold;
pub use legal_1::legal_1_hold;
pub use legal_2::legal_2_hold;
pub use meanings_1::meanings_1_hold;
pub use meanings_2::meanings_2_hold;
pub use replays_1::replays_1_hold;
pub use replays_2::replays_2_hold;
pub use replays_3::replays_3_hold;
pub use seeded_1::seeded_1_hold;
pub use seeded_2::seeded_2_hold;
