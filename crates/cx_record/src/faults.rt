ghost use Rattle.std.specs.Prelude.{◌≡◌, ◌∷◌, [], ◌||◌, ℤ, Bool, Option, Some, None, map, not, slice_get};
ghost use Rattle.cx_text.specs.Views.{seen, line_seen as text_line_seen};
ghost use Rattle.cx_script.specs.Earlier.{word_in};
ghost use Rattle.cx_script.specs.Faults.{next_number, is_outside, is_misfit, any_misfit, any_outside};
ghost use Rattle.cx_record.specs.Roster.{is_known, fits_sort, object_called, numbers_called};
ghost use Rattle.cx_record.specs.ItemLines.{word_at};
ghost use Rattle.cx_record.specs.RecordFaults.{has_unknown, has_wrong_kind, has_outside, has_its_words, object_sort};
ghost use Rattle.cx_record.specs.RecordSteps.{bytes_fault, named_fault};
ghost use Rattle.cx_record.specs.RosterSeen.{roster_seen, line_seen};

use crate::roster::{Roster, takes_kind};
use crate::values::number_in;
use cx_text::{FaultKind, Field, ItemForm, LINE_LIMIT, Line, Sort, Value, is_text};

/// The first kind of fault that the bytes of a line have.
pub(crate) fn bytes_fault(line: &Line<'_>) -> Option<FaultKind>
    ensures { result ≡ bytes_fault (text_line_seen line.now) }
{
    if !is_text(line.bytes) {
        Some(FaultKind::NotAscii)
    } else if LINE_LIMIT < line.bytes.len() || line.over {
        Some(FaultKind::TooLong)
    } else {
        None
    }
}

/// The sort of the object that a row is for.
fn object_sort(fields: &[Field]) -> Option<Sort>
    ensures { result ≡ object_sort fields.now }
{
    match fields {
        [Field::Name(sort), Field::Number(_, _), ..] => Some(*sort),
        _ => None,
    }
}

/// Whether the words of an item are those of the kind of its object.
pub(crate) fn has_its_words(
    roster: &Roster<'_>,
    form: ItemForm,
    values: &[Value<'_>],
    object: Option<u32>,
) -> bool
    requires { object ≡ object_called (roster_seen roster.now) (word_at (line_seen form values.now) 0) }
    ensures { result ≡ has_its_words (roster_seen roster.now) (line_seen form values.now) }
{
    match (object_sort(form.fields()), object) {
        (Some(sort), Some(_)) => match roster.kind(object) {
            None => false,
            Some(kind) => takes_kind(sort, kind),
        },
        _ => true,
    }
}

/// Whether a value is a name that isn't declared.
fn is_unknown(roster: &Roster<'_>, field: Field, value: &Value<'_>) -> bool
    ensures { result ≡ is_misfit (λ w sort. is_known (roster_seen roster.now) w) field (seen value.now) }
{
    match (field, value) {
        (Field::Name(_), Value::Word(name)) => !roster.is_known(name),
        (Field::Each(_), Value::Word(name)) => !roster.is_known(name),
        _ => false,
    }
}

/// Whether one of these values is a name that isn't declared.
fn any_unknown(roster: &Roster<'_>, fields: &[Field], values: &[Value<'_>]) -> bool
    ensures { result ≡ any_misfit (λ w sort. is_known (roster_seen roster.now) w) fields.now (map seen values.now) }
{
    match fields {
        [] => false,
        [field, others @ ..] => match values {
            [] => false,
            [value, after @ ..] => {
                is_unknown(roster, *field, value) || any_unknown(roster, others, after)
            }
        },
    }
}

/// [`is_unknown`] for a value that names the object of this number, if any.
fn is_unknown_by(roster: &Roster<'_>, field: Field, value: &Value<'_>, object: Option<u32>) -> bool
    requires { object ≡ object_called (roster_seen roster.now) (word_in (Some (seen value.now))) }
    ensures { result ≡ is_misfit (λ w sort. is_known (roster_seen roster.now) w) field (seen value.now) }
{
    if object.is_some() {
        return false;
    }
    is_unknown(roster, field, value)
}

/// [`any_unknown`] where the first value names the object of this number, if any.
fn any_unknown_by(
    roster: &Roster<'_>,
    fields: &[Field],
    values: &[Value<'_>],
    object: Option<u32>,
) -> bool
    requires { object ≡ object_called (roster_seen roster.now) (word_in (slice_get (map seen values.now) 0)) }
    ensures { result ≡ any_misfit (λ w sort. is_known (roster_seen roster.now) w) fields.now (map seen values.now) }
{
    match fields {
        [] => false,
        [field, others @ ..] => match values {
            [] => false,
            [value, after @ ..] => {
                is_unknown_by(roster, *field, value, object) || any_unknown(roster, others, after)
            }
        },
    }
}

/// Whether a line has a name that the scenario doesn't declare.
fn has_unknown(
    roster: &Roster<'_>,
    form: ItemForm,
    values: &[Value<'_>],
    object: Option<u32>,
) -> bool
    requires { object ≡ object_called (roster_seen roster.now) (word_at (line_seen form values.now) 0) }
    ensures { result ≡ has_unknown (roster_seen roster.now) (line_seen form values.now) }
{
    any_unknown_by(roster, form.fields(), values, object)
}

/// Whether a value is a name that doesn't fit its field.
fn is_wrong(roster: &Roster<'_>, field: Field, value: &Value<'_>) -> bool
    ensures { result ≡ is_misfit (fits_sort (roster_seen roster.now)) field (seen value.now) }
{
    match (field, value) {
        (Field::Name(sort), Value::Word(name)) => !roster.fits(name, sort),
        (Field::Each(sort), Value::Word(name)) => !roster.fits(name, sort),
        _ => false,
    }
}

/// Whether one of these values is a name that doesn't fit its field.
fn any_wrong(roster: &Roster<'_>, fields: &[Field], values: &[Value<'_>]) -> bool
    ensures { result ≡ any_misfit (fits_sort (roster_seen roster.now)) fields.now (map seen values.now) }
{
    match fields {
        [] => false,
        [field, others @ ..] => match values {
            [] => false,
            [value, after @ ..] => {
                is_wrong(roster, *field, value) || any_wrong(roster, others, after)
            }
        },
    }
}

/// [`is_wrong`] for a value that names the object of this number, if any.
fn is_wrong_by(roster: &Roster<'_>, field: Field, value: &Value<'_>, object: Option<u32>) -> bool
    requires { object ≡ object_called (roster_seen roster.now) (word_in (Some (seen value.now))) }
    ensures { result ≡ is_misfit (fits_sort (roster_seen roster.now)) field (seen value.now) }
{
    match (field, value) {
        (Field::Name(sort), Value::Word(name)) => !roster.fits_by(name, object, sort),
        (Field::Each(sort), Value::Word(name)) => !roster.fits_by(name, object, sort),
        _ => false,
    }
}

/// [`any_wrong`] where the first value names the object of this number, if any.
fn any_wrong_by(
    roster: &Roster<'_>,
    fields: &[Field],
    values: &[Value<'_>],
    object: Option<u32>,
) -> bool
    requires { object ≡ object_called (roster_seen roster.now) (word_in (slice_get (map seen values.now) 0)) }
    ensures { result ≡ any_misfit (fits_sort (roster_seen roster.now)) fields.now (map seen values.now) }
{
    match fields {
        [] => false,
        [field, others @ ..] => match values {
            [] => false,
            [value, after @ ..] => {
                is_wrong_by(roster, *field, value, object) || any_wrong(roster, others, after)
            }
        },
    }
}

/// Whether a line has a name of another kind than its place needs.
fn has_wrong_kind(
    roster: &Roster<'_>,
    form: ItemForm,
    values: &[Value<'_>],
    object: Option<u32>,
) -> bool
    requires { object ≡ object_called (roster_seen roster.now) (word_at (line_seen form values.now) 0) }
    ensures { result ≡ has_wrong_kind (roster_seen roster.now) (line_seen form values.now) }
{
    any_wrong_by(roster, form.fields(), values, object)
}

/// The number at the head of these values.
fn next_number(values: &[Value<'_>]) -> i128
    ensures { result ≡ next_number (map seen values.now) }
{
    match values {
        [] => 0,
        [value, ..] => number_in(value),
    }
}

/// Whether a number is outside its field, where the line's object has so many numbers.
fn is_outside(numbers: i128, field: Field, n: i128, after: &[Value<'_>]) -> bool
    ensures { result ≡ is_outside numbers field n (map seen after.now) }
{
    match field {
        Field::Number(low, high) => !(low as i128 <= n && n <= high as i128),
        Field::Signed => !(i64::MIN as i128 <= n && n <= i64::MAX as i128),
        Field::Index => numbers <= n,
        Field::UpToNext => !(n <= next_number(after)),
        _ => false,
    }
}

/// Whether one of these numbers is outside its field.
fn any_outside(numbers: i128, fields: &[Field], values: &[Value<'_>]) -> bool
    ensures { result ≡ any_outside numbers fields.now (map seen values.now) }
{
    match fields {
        [] => false,
        [field, others @ ..] => match values {
            [] => false,
            [value, after @ ..] => match value {
                Value::Word(_) => any_outside(numbers, others, after),
                Value::Number(n) => {
                    is_outside(numbers, *field, *n, after) || any_outside(numbers, others, after)
                }
            },
        },
    }
}

/// Whether a line has a number outside its range.
fn has_outside(
    roster: &Roster<'_>,
    form: ItemForm,
    values: &[Value<'_>],
    object: Option<u32>,
) -> bool
    requires { object ≡ object_called (roster_seen roster.now) (word_at (line_seen form values.now) 0) }
    ensures { result ≡ has_outside (roster_seen roster.now) (line_seen form values.now) }
{
    any_outside(roster.numbers(object), form.fields(), values)
}

/// The first kind of fault that the names and numbers of a line have.
pub(crate) fn named_fault(
    roster: &Roster<'_>,
    form: ItemForm,
    values: &[Value<'_>],
    object: Option<u32>,
) -> Option<FaultKind>
    requires { object ≡ object_called (roster_seen roster.now) (word_at (line_seen form values.now) 0) }
    ensures { result ≡ named_fault (roster_seen roster.now) (line_seen form values.now) }
{
    if has_unknown(roster, form, values, object) {
        Some(FaultKind::UnknownName)
    } else if has_wrong_kind(roster, form, values, object) {
        Some(FaultKind::WrongKind)
    } else if has_outside(roster, form, values, object) {
        Some(FaultKind::OutOfRange)
    } else {
        None
    }
}
