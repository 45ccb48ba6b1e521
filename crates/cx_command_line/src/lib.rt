//! The words of the program's command line: what they ask for, read with `clap`.
//!
//! `specs/Asked.antt` says which lists of words have a form that the program knows, and what each asks for.
#![tactic(auto)]

mod command;
mod forms;
mod number;

pub use command::Command;
