ghost use Rattle.std.specs.Prelude.{◌≡◌, ◌&&◌, ◌||◌, ◌∷◌, [], ◌++◌, ℤ, pos, Bool, Option, Some, None, List, map, not, length, OnOk, IfOk, drop, replicate};
ghost use Rattle.std.specs.List.{list_any, zip};
ghost use Rattle.std.specs.Str.{bytes_eq};
ghost use Rattle.std.specs.Option.{is_some};
ghost use Rattle.cx_text.specs.Table.{makes};
ghost use Rattle.cx_text.specs.Words.{main_word, spread, is_one_of};
ghost use Rattle.cx_text.specs.Views.{seen, now_all};
ghost use Rattle.cx_script.specs.Earlier.{is_known, fits_sort, made_of, subject};
ghost use Rattle.cx_script.specs.Faults.{numbers_of, is_name_field, is_each_field, has_repeated, is_misfit, any_misfit, is_mutex, mutex_among, next_number, is_outside};
ghost use Rattle.cx_scenario.specs.Views.{values_seen};
ghost use Rattle.cx_scenario.specs.Checks.{any_unknown, head_outside, any_outside, each_words};

use crate::declared::{fits_sort, is_known, is_mutex, numbers_of};
use crate::kept::Kept;
use crate::said::{number_in, word_in};
use cx_text::{Field, Value};
use std::alloc::AllocError;

/// Adds a field so many times.
fn put_fields(fields: &mut Vec<Field>, field: Field, count: usize) -> Result<(), AllocError>
    ensures { OnOk result (fields.new.items ≡ fields.old.items ++ replicate count field) }
{
    for i in 0..count {
        fields.push(field)?;
    }
    Ok(())
}

/// Puts a row's fields for so many words into `fields`, in place of what was there.
pub fn spread(fields: &mut Vec<Field>, row: &[Field], count: usize) -> Result<(), AllocError>
    ensures { OnOk result (fields.new.items ≡ spread row.now count) }
{
    fields.clear();
    let mut left = count;
    for field in row {
        match field {
            Field::Several(sort, least, most) => {
                let many = (*least as usize).max(left.min(*most as usize));
                return put_fields(fields, Field::Each(*sort), many);
            }
            field => fields.push(*field)?,
        }
        left = left.saturating_sub(1);
    }
    Ok(())
}

fn is_name_field(field: Field) -> bool
    ensures { result ≡ is_name_field field }
{
    matches!(field, Field::Name(_) | Field::Each(_))
}

fn is_each_field(field: Field) -> bool
    ensures { result ≡ is_each_field field }
{
    matches!(field, Field::Each(_))
}

/// Whether a name is not declared before.
pub fn has_unknown(kept: &Kept<'_>, fields: &[Field], values: &[Value<'_>]) -> bool
    ensures { result ≡ any_unknown kept.now fields.now (values_seen values.now) }
{
    let mut rest = values;
    for field in fields {
        match rest {
            [] => return false,
            [value, after @ ..] => {
                if is_name_field(*field) && !is_known(kept, word_in(value)) {
                    return true;
                }
                rest = after;
            }
        }
    }
    false
}

fn is_wrong(kept: &Kept<'_>, me: &[u8], field: Field, value: &Value<'_>) -> bool
    ensures { result ≡ is_misfit (fits_sort kept.now me.now) field (seen value.now) }
{
    match (field, value) {
        (Field::Name(sort), Value::Word(name)) => !fits_sort(kept, me, name, sort),
        (Field::Each(sort), Value::Word(name)) => !fits_sort(kept, me, name, sort),
        _ => false,
    }
}

/// Whether a name has a kind that doesn't fit its place, or this thread may not call it.
pub fn has_wrong_kind(kept: &Kept<'_>, me: &[u8], fields: &[Field], values: &[Value<'_>]) -> bool
    ensures { result ≡ any_misfit (fits_sort kept.now me.now) fields.now (values_seen values.now) }
{
    let mut rest = values;
    for field in fields {
        match rest {
            [] => return false,
            [value, after @ ..] => {
                if is_wrong(kept, me, *field, value) {
                    return true;
                }
                rest = after;
            }
        }
    }
    false
}

/// The first mutex among these words.
fn mutex_in<'a>(kept: &Kept<'_>, values: &[Value<'a>]) -> &'a [u8]
    ensures { result.now ≡ mutex_among (is_mutex kept.now) (values_seen values.now) }
{
    for value in values {
        if let Value::Word(name) = value {
            if is_mutex(kept, name) {
                return name;
            }
        }
    }
    &[]
}

fn next_number(values: &[Value<'_>]) -> i128
    ensures { result ≡ next_number (values_seen values.now) }
{
    match values {
        [] => 0,
        [value, ..] => number_in(value),
    }
}

fn is_outside(numbers: i128, field: Field, n: i128, after: &[Value<'_>]) -> bool
    ensures { result ≡ is_outside numbers field n (values_seen after.now) }
{
    match field {
        Field::Number(low, high) => !(low as i128 <= n && n <= high as i128),
        Field::Signed => !(i64::MIN as i128 <= n && n <= i64::MAX as i128),
        Field::Index => numbers <= n,
        Field::UpToNext => !(n <= next_number(after)),
        _ => false,
    }
}

/// Whether the first of these values is a number outside its field.
fn head_outside(numbers: &i128, field: Field, values: &[Value<'_>]) -> bool
    ensures { result ≡ head_outside numbers.now field (values_seen values.now) }
{
    match values {
        [Value::Number(n), after @ ..] => is_outside(*numbers, field, *n, after),
        _ => false,
    }
}

/// The values after the first.
fn tail<'b, 'a>(values: &'b [Value<'a>]) -> &'b [Value<'a>]
    ensures { values_seen result.now ≡ drop 1 (values_seen values.now) }
{
    match values {
        [] => values,
        [_, after @ ..] => after,
    }
}

/// Whether a number is outside its range, where the mutex of the line has so many numbers.
fn any_outside(numbers: &i128, fields: &[Field], values: &[Value<'_>]) -> bool
    ensures { result ≡ any_outside numbers.now fields.now (values_seen values.now) }
{
    let mut rest = values;
    for field in fields {
        if head_outside(numbers, *field, rest) {
            return true;
        }
        rest = tail(rest);
    }
    false
}

/// Whether a number is outside its range.
pub fn has_outside(kept: &Kept<'_>, fields: &[Field], values: &[Value<'_>]) -> bool
    ensures { result ≡ any_outside (numbers_of kept.now (mutex_among (is_mutex kept.now) (values_seen values.now))) fields.now (values_seen values.now) }
{
    let numbers = numbers_of(kept, mutex_in(kept, values));
    any_outside(&numbers, fields, values)
}

/// Puts the words of a list of distinct names into `words`, in place of what was there.
pub fn each_words<'a>(
    words: &mut Vec<&'a [u8]>,
    fields: &[Field],
    values: &[Value<'a>],
) -> Result<(), AllocError>
    ensures { OnOk result (now_all words.new.items ≡ each_words fields.now (values_seen values.now)) }
{
    words.clear();
    let mut rest = values;
    for field in fields {
        match rest {
            [] => return Ok(()),
            [value, after @ ..] => {
                if is_each_field(*field) {
                    words.push(word_in(value))?;
                }
                rest = after;
            }
        }
    }
    Ok(())
}

/// Whether a word is one of these.
pub fn is_one_of(words: &[&[u8]], word: &[u8]) -> bool
    ensures { result ≡ is_one_of (now_all words.now) word.now }
{
    for w in words {
        if *w == word {
            return true;
        }
    }
    false
}

/// Whether a word stands there twice.
pub fn has_repeated(words: &[&[u8]]) -> bool
    ensures { result ≡ has_repeated (now_all words.now) }
{
    let mut rest = words;
    for word in words {
        match rest {
            [] => return false,
            [_, after @ ..] => {
                if is_one_of(after, word) {
                    return true;
                }
                rest = after;
            }
        }
    }
    false
}
