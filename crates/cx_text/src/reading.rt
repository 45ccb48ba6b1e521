ghost use Rattle.std.specs.Prelude.{◌≡◌, ◌++◌, ◌&&◌, map, length, IfOk, replicate, max, min, ◌==◌};
ghost use Rattle.std.specs.Option.{option_map};
ghost use Rattle.cx_text.specs.Words.{spread, has_head, has_literals, values_of, own_word, said_as, first_some, rows_for, line_by, filled_by};
ghost use Rattle.cx_text.specs.Views.{seen, now_all, said_if, literal_fits};

use crate::form::{Field, Form};
use crate::row::Row;
use crate::value::{Value, value_of};
use std::alloc::AllocError;

/// Whether a word is the one that stands for itself, where the field names one.
fn literal_fits(field: Field, word: &[u8]) -> bool
    ensures { result ≡ literal_fits field word.now }
{
    match field {
        Field::Word(literal) => literal.word() == word,
        _ => true,
    }
}

/// Whether so many words are within the bounds of a field for several.
fn is_within(least: u32, most: u32, count: usize) -> bool
    ensures { result ≡ (max least (min count most) == count) }
{
    count.min(most as usize).max(least as usize) == count
}

/// Whether there are as many words as fields, and the words that stand for themselves among them.
fn has_literals(fields: &[Field], words: &[&[u8]]) -> bool
    ensures { result ≡ has_literals (spread fields.now (length words.now)) (now_all words.now) }
{
    match fields {
        [] => words.is_empty(),
        [field, others @ ..] => match *field {
            Field::Several(_, least, most) => is_within(least, most, words.len()),
            _ => match words {
                [] => false,
                [word, after @ ..] => {
                    if literal_fits(*field, word) {
                        has_literals(others, after)
                    } else {
                        false
                    }
                }
            },
        },
    }
}

/// Adds what each of the words holds at one field; `false` where one of them doesn't have its form.
fn push_each<'a>(
    own: &[u8],
    field: Field,
    words: &[&'a [u8]],
    values: &mut Vec<Value<'a>>,
) -> Result<bool, AllocError>
    ensures { IfOk result (λ all. option_map (λ vs. map seen values.old.items ++ vs) (values_of 1 own.now (replicate (length words.now) field) (now_all words.now)) ≡ said_if all (map seen values.new.items)) }
{
    for word in words {
        match value_of(own, field, word) {
            None => return Ok(false),
            Some(value) => values.push(value)?,
        }
    }
    Ok(true)
}

/// Adds what each of the words holds at its field; `false` where one of them doesn't have its form.
fn push_values<'a>(
    own: &[u8],
    fields: &[Field],
    words: &[&'a [u8]],
    values: &mut Vec<Value<'a>>,
) -> Result<bool, AllocError>
    ensures { IfOk result (λ all. option_map (λ vs. map seen values.old.items ++ vs) (values_of 1 own.now (spread fields.now (length words.now)) (now_all words.now)) ≡ said_if all (map seen values.new.items)) }
{
    match fields {
        [] => Ok(words.is_empty()),
        [field, others @ ..] => match *field {
            Field::Several(sort, least, most) => {
                if is_within(least, most, words.len()) {
                    push_each(own, Field::Each(sort), words, values)
                } else {
                    Ok(false)
                }
            }
            _ => match words {
                [] => Ok(false),
                [word, after @ ..] => match value_of(own, *field, word) {
                    None => Ok(false),
                    Some(value) => {
                        values.push(value)?;
                        push_values(own, others, after, values)
                    }
                },
            },
        },
    }
}

/// The second word of a line.
fn own_word<'a>(after: &[&'a [u8]]) -> &'a [u8]
    ensures { result.now ≡ own_word (now_all after.now) }
{
    match after {
        [] => &[],
        [own, ..] => own,
    }
}

/// Whether a row has these words: the first, and those after it that stand for themselves.
fn may_be<F: Row>(row: F, head: &[u8], after: &[&[u8]]) -> bool
    ensures { result ≡ (has_head F.table 1 head.now row && has_literals (spread (F.table.fields row) (length after.now)) (now_all after.now)) }
{
    if row.head() != head {
        return false;
    }
    if row.since() > 1 {
        return false;
    }
    has_literals(row.fields(), after)
}

/// The first row that takes these words, and what they hold.
fn read_row<'a, F: Row>(
    head: &[u8],
    after: &[&'a [u8]],
    values: &mut Vec<Value<'a>>,
) -> Result<Option<F>, AllocError>
    ensures { IfOk result (λ form. option_map (λ f. record { form = f; values = map seen values.new.items }) form ≡ first_some (said_as F.table 1 (now_all after.now)) (rows_for F.table 1 head.now (now_all after.now))) }
{
    for row in F::rows_for(head, after) {
        if !may_be(*row, head, after) {
            continue;
        }
        values.clear();
        let all = push_values(own_word(after), row.fields(), after, values)?;
        if all {
            return Ok(Some(*row));
        }
    }
    Ok(None)
}

/// Reads the words of a line: the form that they have, with what the words after the first hold
/// in `values`, in place of what was there; `None` where they have none of the table's forms.
///
/// Errors: no memory for the values.
#[tactic(auto, unfolding(crate::specs::Words::line_by))]
pub fn read_line<'a, F: Row>(
    words: &[&'a [u8]],
    values: &mut Vec<Value<'a>>,
) -> Result<Option<F>, AllocError>
    ensures { IfOk result (λ form. option_map (λ f. record { form = f; values = map seen values.new.items }) form ≡ line_by F.table 1 (now_all words.now)) }
{
    match words {
        [] => Ok(None),
        [head, after @ ..] => read_row(head, after, values),
    }
}

/// [`read_line`] for the lines of a scenario.
pub fn read_form<'a>(
    words: &[&'a [u8]],
    values: &mut Vec<Value<'a>>,
) -> Result<Option<Form>, AllocError>
    ensures { IfOk result (λ form. option_map (λ f. record { form = f; values = map seen values.new.items }) form ≡ filled_by 1 (now_all words.now)) }
{
    read_line(words, values)
}
