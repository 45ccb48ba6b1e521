ghost use Rattle.std.specs.Prelude.{◌≡◌, IfOk};
ghost use Rattle.cx_commands.specs.FaultLine.{kind_word, fault_line};

use cx_names::NoMemory;
use cx_text::{Fault, FaultKind};
use std::alloc::Global;

/// The word that names a kind of fault.
fn kind_word(kind: FaultKind) -> &'static str
    ensures { result.now ≡ kind_word kind }
{
    match kind {
        FaultKind::NotAscii => "NotAscii",
        FaultKind::TooLong => "TooLong",
        FaultKind::BadVersion => "BadVersion",
        FaultKind::BadWord => "BadWord",
        FaultKind::TooMany => "TooMany",
        FaultKind::UnknownName => "UnknownName",
        FaultKind::WrongKind => "WrongKind",
        FaultKind::OutOfRange => "OutOfRange",
        FaultKind::Twice => "Twice",
        FaultKind::LatchOver => "LatchOver",
        FaultKind::BadOrder => "BadOrder",
        FaultKind::NoEnd => "NoEnd",
    }
}

/// The line `fault LINE KIND` with its line feed.
pub fn fault_line(alloc: Global, fault: Fault) -> Result<Vec<u8>, NoMemory>
    ensures { IfOk result (λ text. text.items ≡ fault_line fault) }
{
    let line = format!(in alloc; "fault {} {}\n", fault.line, kind_word(fault.kind))?;
    Ok(line.into_bytes())
}
