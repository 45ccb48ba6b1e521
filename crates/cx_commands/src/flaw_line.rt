ghost use Rattle.std.specs.Prelude.{◌≡◌, IfOk};
ghost use Rattle.cx_commands.specs.Checks.{cause_word, flaw_line};

use cx_history::Cause;
use cx_names::NoMemory;
use std::alloc::Global;

/// The word that names a cause.
fn cause_word(cause: Cause) -> &'static str
    ensures { result.now ≡ cause_word cause }
{
    match cause {
        Cause::Text => "text",
        Cause::Gap => "gap",
        Cause::Step => "step",
        Cause::Shown => "shown",
        Cause::Fell => "fell",
        Cause::Order => "order",
    }
}

/// The line `illegal THREAD ITEM CAUSE` with its line feed.
pub fn flaw_line(alloc: Global, name: &[u8], item: u32, cause: Cause) -> Result<Vec<u8>, NoMemory>
    ensures { IfOk result (λ text. text.items ≡ flaw_line name.now item cause) }
{
    let mut line = b"illegal ".to_vec(alloc)?;
    line.extend_from_slice(name)?;
    let rest = format!(in alloc; " {} {}\n", item, cause_word(cause))?;
    line.extend_from_slice(rest.as_bytes())?;
    Ok(line)
}
