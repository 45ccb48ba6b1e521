ghost use Rattle.std.specs.Prelude.{◌≡◌};
ghost use Rattle.cx_command_line.specs.Words.{seed_of, items_of, value_from};

/// The value of a word of digits, where it fits in 64 bits.
#[tactic(auto, unfolding(crate::specs::Words::value_from))]
fn value_of(word: &[u8]) -> Option<u64>
    ensures { result ≡ value_from 0 word.now }
{
    let mut value = 0u64;
    for digit in word {
        if !digit.is_ascii_digit() {
            return None;
        }
        value = value.checked_mul(10)?.checked_add((*digit - b'0') as u64)?;
    }
    Some(value)
}

/// The seed that a word is: 1 to 20 decimal digits whose value fits in 64 bits.
#[tactic(auto, using(crate::proofs::Seeds::seed_empty, crate::proofs::Seeds::seed_long, crate::proofs::Seeds::seed_value))]
pub fn seed_of(word: &[u8]) -> Option<u64>
    ensures { result ≡ seed_of word.now }
{
    if word.is_empty() {
        return None;
    }
    if word.len() > 20 {
        return None;
    }
    value_of(word)
}

/// The number of items that a word is: 1 to 20 decimal digits whose value is from 1 to 4,800.
pub fn items_of(word: &[u8]) -> Option<u32>
    ensures { result ≡ items_of word.now }
{
    let number = seed_of(word)?;
    if number == 0 {
        return None;
    }
    if number > 4_800 {
        return None;
    }
    Some(number as u32)
}
