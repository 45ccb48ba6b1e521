ghost use Rattle.std.specs.Prelude.{◌≡◌, IfOk};
ghost use Rattle.clap.specs.Words.{app_of};
ghost use Rattle.cx_command_line.specs.Forms.{forms};

use cx_names::NoMemory;
use std::alloc::Global;

/// The words that the program knows, and what may stand behind each, for `clap`: one level of subcommands, with nothing
/// that `clap` would add.
pub fn forms<'a>(alloc: Global) -> Result<clap::Command<'a>, NoMemory>
    ensures { IfOk result (λ c. app_of c ≡ forms) }
{
    let run = clap::Command::new(alloc, "run");
    let seed = clap::Arg::new(alloc, "seed");
    let replay = clap::Command::new(alloc, "replay").arg(seed)?;
    let check = clap::Command::new(alloc, "check");
    let items = clap::Arg::new(alloc, "items").required(true);
    let make = clap::Command::new(alloc, "make").arg(items)?;
    let races = clap::Command::new(alloc, "races");
    let program = clap::Command::new(alloc, "cxthread")
        .disable_help_flag(true)
        .disable_help_subcommand(true)
        .disable_version_flag(true)
        .subcommand(run)?
        .subcommand(replay)?
        .subcommand(check)?
        .subcommand(make)?
        .subcommand(races)?;
    Ok(program)
}
