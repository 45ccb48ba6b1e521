ghost use Rattle.std.specs.Prelude.{◌≡◌, ◌||◌};
ghost use Rattle.std.specs.Option.{option_map};
ghost use Rattle.std.specs.Str.{bytes_eq};
ghost use Rattle.cx_text.specs.Words.{is_name, natural_of, main_word};
ghost use Rattle.cx_text.specs.Views.{now_all, seen};
ghost use Rattle.cx_accesses.specs.AccessLines.{mode_of, access_by, said_by_words};
ghost use Rattle.cx_accesses.specs.AccessesSeen.{said_seen, number_in};

use cx_text::{Field, Value, is_name, value_of};

/// What a line of a list of accesses says.
#[derive(Clone, Copy)]
pub(crate) enum Said<'a> {
    Version,
    /// The thread, the number of the item behind the access, the variable, and whether it's a write.
    Access(&'a [u8], i128, &'a [u8], bool),
    Last,
}

/// Whether an access of this mode writes.
fn mode_of(word: &[u8]) -> Option<bool>
    ensures { result ≡ mode_of word.now }
{
    if b"read".as_slice() == word {
        Some(false)
    } else if b"write".as_slice() == word {
        Some(true)
    } else {
        None
    }
}

/// The number that a value is.
fn number_in(value: Option<Value<'_>>) -> Option<i128>
    ensures { result ≡ number_in (option_map seen value.entry) }
{
    match value {
        Some(Value::Number(n)) => Some(n),
        _ => None,
    }
}

/// The number that 1 to 20 digits write.
fn natural(word: &[u8]) -> Option<i128>
    ensures { result ≡ natural_of word.now }
{
    number_in(value_of(b"", Field::Number(0, 0), word))
}

/// Whether a word may be the name of a thread.
fn is_thread_name(word: &[u8]) -> bool
    ensures { result ≡ (is_name 1 word.now || bytes_eq main_word word.now) }
{
    is_name(word) || b"main".as_slice() == word
}

/// What an access says, by its words.
fn access<'a>(name: &'a [u8], i: &[u8], var: &'a [u8], mode: &[u8]) -> Option<Said<'a>>
    ensures { option_map said_seen result ≡ access_by name.now (natural_of i.now) var.now (mode_of mode.now) }
{
    match natural(i) {
        None => None,
        Some(number) => match mode_of(mode) {
            None => None,
            Some(write) => {
                if is_thread_name(name) && is_name(var) {
                    Some(Said::Access(name, number, var, write))
                } else {
                    None
                }
            }
        },
    }
}

/// What a line of these words says, if anything.
pub(crate) fn said_of<'a>(words: &[&'a [u8]]) -> Option<Said<'a>>
    ensures { option_map said_seen result ≡ said_by_words (now_all words.now) }
{
    match words {
        [word] => {
            if b"done".as_slice() == *word {
                Some(Said::Last)
            } else {
                None
            }
        }
        [word, version] => {
            if b"accesses".as_slice() == *word && b"1".as_slice() == *version {
                Some(Said::Version)
            } else {
                None
            }
        }
        [name, i, var, mode] => access(name, i, var, mode),
        _ => None,
    }
}
