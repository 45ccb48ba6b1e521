ghost use Rattle.std.specs.Prelude.{◌≡◌, ◌≢◌, ◌∷◌, None, IfErr, IfOk, IfSome, map, codes, is_some, option_map};
ghost use Rattle.std.specs.List.{list_any};
ghost use Rattle.std.specs.String.{string_bytes};
ghost use Rattle.clap.specs.Words.{subcommand_rows_of};
ghost use Rattle.cx_command_line.specs.Asked.{command_of, IsInRange};
ghost use Rattle.cx_command_line.specs.Forms.{Answers, command_in, command_with, is_flag};

use crate::forms::forms;
use crate::number::{items_of, seed_of};
use clap::ArgMatches;
use clap::error::ErrorKind;
use cx_names::NoMemory;
use std::alloc::Global;

/// What the words ask for.
#[derive(Clone, Copy, Debug, PartialEq, Eq)]
pub enum Command {
    /// To run a scenario on real threads.
    Run,
    /// To replay a scenario, with a seed for the choice among enabled threads or with the first one always.
    Replay(Option<u64>),
    /// To check a record of a scenario.
    Check,
    /// To make the scenario of so many items, from 1 to 4,800.
    Make(u32),
    /// To say which accesses to plain variables race by a record.
    Races,
}

/// Whether `clap` would take a word for a flag.
fn is_flag(word: &String) -> bool
    ensures { result ≡ is_flag (string_bytes word.now) }
{
    word.as_bytes().first() == Some(&b'-')
}

/// Whether `clap` would take one of the words for a flag.
fn has_flag(words: &[String]) -> bool
    ensures { result ≡ list_any (λ word. is_flag (string_bytes word)) words.now }
{
    words.iter().any(|word| is_flag(word))
}

/// The command of a word, by what stands behind it.
fn command_with(name: &str, seed: Option<&str>, items: Option<&str>) -> Option<Command>
    ensures { result ≡ command_with name.now (option_map (λ s. s.now) seed.entry) (option_map (λ s. s.now) items.entry) }
{
    match name {
        "run" => Some(Command::Run),
        "replay" => match seed {
            None => Some(Command::Replay(None)),
            Some(seed) => Some(Command::Replay(Some(seed_of(seed.as_bytes())?))),
        },
        "check" => Some(Command::Check),
        "make" => Some(Command::Make(items_of(items?.as_bytes())?)),
        "races" => Some(Command::Races),
        _ => None,
    }
}

/// The command that `clap` found.
fn command_in(matches: &ArgMatches) -> Option<Command>
    ensures { result ≡ command_in (subcommand_rows_of matches.now) }
{
    let (name, inner) = matches.subcommand()?;
    command_with(name, inner.get_str("seed"), inner.get_str("items"))
}

/// The words behind the program's own.
fn with_program<'a>(alloc: Global, words: &'a [String]) -> Result<Vec<&'a str>, NoMemory>
    ensures { IfOk result (λ all. map (λ s. s.now) all.items ≡ codes "cxthread" ∷ map string_bytes words.entry.now) }
{
    let mut all = Vec::new(alloc);
    all.push("cxthread")?;
    for word in words {
        all.push(word.as_str())?;
    }
    Ok(all)
}

/// What `clap` answers to these words, the first of which is the program's name.
fn asked(alloc: Global, words: &[&str]) -> Result<Option<Command>, NoMemory>
    ensures { IfOk result (λ c. Answers (map (λ s. s.now) words.now) c) }
{
    match forms(alloc)?.try_get_matches_from(words) {
        Ok(matches) => Ok(command_in(&matches)),
        Err(error) => match error.kind() {
            ErrorKind::OutOfMemory => Err(NoMemory),
            _ => Ok(None),
        },
    }
}

/// The command that these words are by what `clap` makes of them. A list in which a word begins with `-` has no form.
fn read(alloc: Global, words: &[String]) -> Result<Option<Command>, NoMemory>
    ensures { IfOk result (λ c. c ≡ command_of (map string_bytes words.now)) }
{
    if has_flag(words) {
        return Ok(None);
    }
    let all = with_program(alloc, words)?;
    asked(alloc, &all)
}

/// Whether words have a form that the program knows, told without taking memory.
fn has_form(words: &[String]) -> bool
    ensures { result ≡ is_some (command_of (map string_bytes words.now)) }
{
    match words {
        [word] if word.as_str() == "run" => true,
        [word] if word.as_str() == "replay" => true,
        [word] if word.as_str() == "check" => true,
        [word] if word.as_str() == "races" => true,
        [word, seed] if word.as_str() == "replay" => seed_of(seed.as_bytes()).is_some(),
        [word, items] if word.as_str() == "make" => items_of(items.as_bytes()).is_some(),
        _ => false,
    }
}

impl Command {
    /// The command that these words are, none where they have no form that the program knows.
    ///
    /// `clap` reads them, and takes memory by `alloc`. Where none is left words of no form are still told from the others:
    /// `NoMemory` comes for words of a form alone.
    #[tactic(auto, using(crate::proofs::Ranges::all_in_range))]
    pub fn from_words(alloc: Global, words: &[String]) -> Result<Option<Command>, NoMemory>
        ensures command { IfOk result (λ c. c ≡ command_of (map string_bytes words.now)) }
        ensures in_range { IfOk result (λ c. IfSome c IsInRange) }
        ensures no_memory { IfErr result (λ e. command_of (map string_bytes words.now) ≢ None) }
    {
        match read(alloc, words) {
            Ok(command) => Ok(command),
            Err(NoMemory) => {
                if has_form(words) {
                    Err(NoMemory)
                } else {
                    Ok(None)
                }
            }
        }
    }
}
