ghost use Rattle.std.specs.Prelude.{◌≡◌, ◌==◌, ◌<◌, ◌^◌, ◌||◌, ◌&&◌, ℤ, pos, IfSome, IfOk, OnOk, map};
ghost use Rattle.std.specs.Option.{option_map};
ghost use Rattle.std.specs.List.{list_all};
ghost use Rattle.std.specs.Str.{bytes_eq};
ghost use Rattle.cx_text.specs.Words.{is_name, is_name_byte, begins_lower, is_reserved, is_one_of, is_digit, is_digits, reply_words, natural_of, integer_of, policy_words, relation_words, value_of, word_where, main_word, ANumber};
ghost use Rattle.cx_text.specs.Views.{seen, now_all};

use crate::form::{Field, Literal, Sort};

/// What a word of a line holds.
#[derive(Clone, Copy, Debug)]
pub enum Value<'a> {
    /// A name, or a word that stands for itself.
    Word(&'a [u8]),
    /// A number of at most 20 digits.
    Number(i128),
}

fn is_one_of(words: &[&[u8]], word: &[u8]) -> bool
    ensures { result ≡ is_one_of (now_all words.now) word.now }
{
    words.contains(&word)
}

/// Whether a word is one of the replies that are words.
fn is_reply_word(word: &[u8]) -> bool
    ensures { result ≡ is_one_of reply_words word.now }
{
    let words: &[&[u8]] = &[
        b"ok",
        b"true",
        b"false",
        b"over",
        b"over-expected",
        b"max-levels",
        b"overflow",
        b"made",
        b"already",
        b"queued",
        b"ran",
        b"never",
        b"removed",
        b"inside",
        b"not-held",
        b"returned",
        b"passive",
        b"no-token",
        b"spent",
        b"no-thread",
        b"launched",
        b"deferred",
        b"none",
        b"no_state",
        b"promise_already_satisfied",
        b"future_already_retrieved",
        b"broken_promise",
        b"operation_not_permitted",
        b"resource_deadlock_would_occur",
        b"invalid_argument",
    ];
    is_one_of(words, word)
}

fn is_policy(word: &[u8]) -> bool
    ensures { result ≡ is_one_of policy_words word.now }
{
    let words: &[&[u8]] = &[b"async", b"deferred", b"both"];
    is_one_of(words, word)
}

fn is_relation(word: &[u8]) -> bool
    ensures { result ≡ is_one_of relation_words word.now }
{
    let words: &[&[u8]] = &[b"<", b"<=", b"=", b"!=", b">=", b">"];
    is_one_of(words, word)
}

fn is_name_byte(b: u8) -> bool
    ensures { result ≡ is_name_byte b }
{
    b.is_ascii_lowercase() || b.is_ascii_digit() || b == b'_'
}

fn all_name_bytes(word: &[u8]) -> bool
    ensures { result ≡ list_all is_name_byte word.now }
{
    word.iter().all(|b| is_name_byte(*b))
}

fn begins_lower(word: &[u8]) -> bool
    ensures { result ≡ begins_lower word.now }
{
    match word {
        [] => false,
        [first, ..] => first.is_ascii_lowercase(),
    }
}

fn is_reserved(word: &[u8]) -> bool
    ensures { result ≡ is_reserved 1 word.now }
{
    b"main".as_slice() == word || is_reply_word(word)
}

/// Whether a word is a name: 1 to 16 lower-case letters, digits and `_`, a letter first, and
/// neither `main` nor a reply word.
#[tactic(auto, unfolding(crate::specs::Words::is_name))]
pub fn is_name(word: &[u8]) -> bool
    ensures { result ≡ is_name 1 word.now }
{
    if !begins_lower(word) {
        return false;
    }
    if word.len() > 16 {
        return false;
    }
    if !all_name_bytes(word) {
        return false;
    }
    !is_reserved(word)
}

fn all_digits(word: &[u8]) -> bool
    ensures { result ≡ list_all is_digit word.now }
{
    word.iter().all(|b| b.is_ascii_digit())
}

#[tactic(auto, unfolding(crate::specs::Words::is_digits))]
fn is_digits(word: &[u8]) -> bool
    ensures { result ≡ is_digits word.now }
{
    if word.is_empty() {
        return false;
    }
    if word.len() > 20 {
        return false;
    }
    all_digits(word)
}

/// The number that 1 to 20 digits write.
fn natural(word: &[u8]) -> Option<u128>
    ensures value { option_map pos result ≡ natural_of word.now }
    ensures short { IfSome result (λ n. n < 10 ^ 20) }
{
    if !is_digits(word) {
        return None;
    }
    let mut n: u128 = 0;
    for b in word {
        n = n * 10 + (*b - b'0') as u128;
    }
    Some(n)
}

/// The number that an optional minus sign and 1 to 20 digits write.
fn integer(word: &[u8]) -> Option<i128>
    ensures { result ≡ integer_of word.now }
{
    match word {
        [] => None,
        [first, digits @ ..] => {
            if *first == b'-' {
                let n = natural(digits)?;
                Some(-(n as i128))
            } else {
                let n = natural(word)?;
                Some(n as i128)
            }
        }
    }
}

fn word_where(fits: bool, word: &[u8]) -> Option<Value<'_>>
    ensures { option_map seen result ≡ word_where fits word.now }
{
    if fits { Some(Value::Word(word)) } else { None }
}

fn natural_value(word: &[u8]) -> Option<Value<'_>>
    ensures { option_map seen result ≡ option_map ANumber (natural_of word.now) }
{
    let n = natural(word)?;
    Some(Value::Number(n as i128))
}

fn integer_value(word: &[u8]) -> Option<Value<'_>>
    ensures { option_map seen result ≡ option_map ANumber (integer_of word.now) }
{
    let n = integer(word)?;
    Some(Value::Number(n))
}

/// What a word holds at a field, in a line whose second word is `own`; `None` where it does
/// not have the field's form.
#[tactic(auto, unfolding(crate::specs::Words::value_of))]
pub fn value_of<'a>(own: &[u8], field: Field, word: &'a [u8]) -> Option<Value<'a>>
    ensures { option_map seen result ≡ value_of 1 own.now field word.now }
{
    match field {
        Field::New => word_where(is_name(word), word),
        Field::Own => word_where(is_name(word) && own == word, word),
        Field::Name(sort) => word_where(
            is_name(word) || (sort.takes_main() && b"main".as_slice() == word),
            word,
        ),
        Field::Each(sort) => word_where(
            is_name(word) || (sort.takes_main() && b"main".as_slice() == word),
            word,
        ),
        Field::Several(_, _, _) => None,
        Field::Word(literal) => word_where(literal.word() == word, word),
        Field::Policy => word_where(is_policy(word), word),
        Field::Relation => word_where(is_relation(word), word),
        Field::Number(_, _) => natural_value(word),
        Field::Signed => integer_value(word),
        Field::Index => natural_value(word),
        Field::UpToNext => natural_value(word),
    }
}
