ghost use Rattle.std.specs.Prelude.{◌≡◌};
ghost use Rattle.cx_machine.specs.Words.{small_of};

/// The number of 32 bits that this is, if it is one.
pub fn small(a: i64) -> Option<u32>
    ensures { result ≡ small_of a }
{
    if a >= 0 && a < 4_294_967_296 {
        Some(a as u32)
    } else {
        None
    }
}
