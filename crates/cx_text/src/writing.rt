ghost use Rattle.std.specs.Prelude.{◌≡◌, ◌++◌, ◌∷◌, [], map, OnOk, decimal};
ghost use Rattle.std.specs.Fmt.{signed_decimal};
ghost use Rattle.cx_text.specs.Lines.{line_text};
ghost use Rattle.cx_text.specs.Words.{spell, words_by, words_for};
ghost use Rattle.cx_text.specs.Views.{seen, spaced};

use crate::form::Form;
use crate::row::Row;
use crate::value::Value;
use std::alloc::AllocError;

/// Adds the decimal digits of a number.
fn put_digits(out: &mut Vec<u8>, n: u64) -> Result<(), AllocError>
    ensures { OnOk result (out.new.items ≡ out.old.items ++ decimal n) }
{
    if n < 10 {
        out.push(b'0' + n as u8)?;
        return Ok(());
    }
    put_digits(out, n / 10)?;
    out.push(b'0' + (n % 10) as u8)?;
    Ok(())
}

/// Adds the decimal digits of a number that may need more than 64 bits.
fn put_natural(out: &mut Vec<u8>, n: u128) -> Result<(), AllocError>
    ensures { OnOk result (out.new.items ≡ out.old.items ++ decimal n) }
{
    if n <= u64::MAX as u128 {
        return put_digits(out, n as u64);
    }
    put_natural(out, n / 10)?;
    out.push(b'0' + (n % 10) as u8)?;
    Ok(())
}

/// Adds a number as a canonical decimal.
///
/// Errors: no memory for it; what was there is then kept, with a part of the digits after it.
pub fn put_number(out: &mut Vec<u8>, n: i128) -> Result<(), AllocError>
    ensures { OnOk result (out.new.items ≡ out.old.items ++ signed_decimal n) }
{
    if n >= 0 {
        return put_natural(out, n as u128);
    }
    out.push(b'-')?;
    put_natural(out, n.unsigned_abs())
}

/// Adds the word that a value is written as.
///
/// Errors: no memory for it.
pub fn put_value(out: &mut Vec<u8>, value: Value<'_>) -> Result<(), AllocError>
    ensures { OnOk result (out.new.items ≡ out.old.items ++ spell (seen value.entry)) }
{
    match value {
        Value::Word(word) => out.extend_from_slice(word),
        Value::Number(n) => put_number(out, n),
    }
}

/// Adds each value, after a space.
fn put_values(out: &mut Vec<u8>, values: &[Value<'_>]) -> Result<(), AllocError>
    ensures { OnOk result (out.new.items ≡ out.old.items ++ spaced (map seen values.now)) }
{
    for value in values {
        out.push(b' ')?;
        put_value(out, *value)?;
    }
    Ok(())
}

/// Adds a line of the table: its first word and its values, one space between, and a line feed.
///
/// Errors: no memory for it.
pub fn put_line<F: Row>(out: &mut Vec<u8>, form: F, values: &[Value<'_>]) -> Result<(), AllocError>
    ensures { OnOk result (out.new.items ≡ out.old.items ++ line_text (words_by F.table (record { form = form; values = map seen values.now }))) }
{
    out.extend_from_slice(form.head())?;
    put_values(out, values)?;
    out.push(b'\n')?;
    Ok(())
}

/// [`put_line`] for the lines of a scenario.
pub fn put_form(out: &mut Vec<u8>, form: Form, values: &[Value<'_>]) -> Result<(), AllocError>
    ensures { OnOk result (out.new.items ≡ out.old.items ++ line_text (words_for (record { form = form; values = map seen values.now }))) }
{
    put_line(out, form, values)
}
