ghost use Rattle.std.specs.Prelude.{◌≡◌, Option, Some, map, slice_get, pos, negsuc};
ghost use Rattle.cx_text.specs.Views.{seen};
ghost use Rattle.cx_script.specs.Earlier.{word_in, number_in};
ghost use Rattle.cx_script.specs.Faults.{count_in};
ghost use Rattle.cx_record.specs.ItemLines.{within};

use cx_text::Value;

/// The word of a value, and no byte of a number.
fn word_in<'a>(value: &Value<'a>) -> &'a [u8]
    ensures { result.now ≡ word_in (Some (seen value.now)) }
{
    match value {
        Value::Word(word) => word,
        Value::Number(_) => &[],
    }
}

/// The number of a value, and 0 of a word.
pub(crate) fn number_in(value: &Value<'_>) -> i128
    ensures { result ≡ number_in (Some (seen value.now)) }
{
    match value {
        Value::Word(_) => 0,
        Value::Number(n) => *n,
    }
}

/// The word at place `i`, and no byte where there is none.
pub(crate) fn word_at<'a>(values: &[Value<'a>], i: usize) -> &'a [u8]
    ensures { result.now ≡ word_in (slice_get (map seen values.now) i) }
{
    match values.get(i) {
        None => &[],
        Some(value) => word_in(value),
    }
}

/// The number at place `i`, and 0 where there is none.
fn number_at(values: &[Value<'_>], i: usize) -> i128
    ensures { result ≡ number_in (slice_get (map seen values.now) i) }
{
    match values.get(i) {
        None => 0,
        Some(value) => number_in(value),
    }
}

/// The number of 32 bits at place `i`, and 0 where there is none.
pub(crate) fn small_at(values: &[Value<'_>], i: usize) -> u32
    ensures { result ≡ count_in (within (pos 0) (pos 4294967295) (number_in (slice_get (map seen values.now) i))) }
{
    let n = number_at(values, i);
    if 0 <= n && n <= 4_294_967_295 {
        n as u32
    } else {
        0
    }
}

/// The number of 64 bits at place `i`, and 0 where there is none.
pub(crate) fn signed_at(values: &[Value<'_>], i: usize) -> i64
    ensures { result ≡ within (negsuc 9223372036854775807) (pos 9223372036854775807) (number_in (slice_get (map seen values.now) i)) }
{
    let n = number_at(values, i);
    if -9_223_372_036_854_775_808 <= n && n <= 9_223_372_036_854_775_807 {
        n as i64
    } else {
        0
    }
}
