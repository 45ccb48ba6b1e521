ghost use Rattle.std.specs.Prelude.{◌≡◌, OnOk};
ghost use Rattle.std.specs.List.{before_first, after_first};
ghost use Rattle.cx_text.specs.Lines.{words_of, is_blank};
ghost use Rattle.cx_text.specs.Views.{now_all, is_comment};

use std::alloc::AllocError;

/// Puts the words of a line into `words`, in place of what was there: none where the line is
/// dropped, since it has only blanks or its first word begins with `#`.
///
/// Errors: no memory for the words.
#[tactic(auto, unfolding(crate::specs::Lines::words_of))]
pub fn split_words<'a>(words: &mut Vec<&'a [u8]>, line: &'a [u8]) -> Result<(), AllocError>
    ensures { OnOk result (now_all words.new.items ≡ words_of line.now) }
{
    words.clear();
    let mut rest = line;
    while !rest.is_empty() {
        let (part, after) = first_part(rest);
        rest = after;
        if !part.is_empty() {
            words.push(part)?;
        }
    }
    if is_comment(words) {
        words.clear();
    }
    Ok(())
}

/// The bytes before the first blank, and those after it.
fn first_part(text: &[u8]) -> (&[u8], &[u8])
    ensures before { result.0.now ≡ before_first is_blank text.now }
    ensures after { result.1.now ≡ after_first is_blank text.now }
{
    match text.iter().position(|b| *b == b' ' || *b == b'\t') {
        Some(at) => (&text[..at], &text[at + 1..]),
        None => (text, &[]),
    }
}

/// Whether the first word begins with `#`.
fn is_comment(words: &[&[u8]]) -> bool
    ensures { result ≡ is_comment (now_all words.now) }
{
    match words {
        [] => false,
        [first, ..] => match *first {
            [b'#', ..] => true,
            _ => false,
        },
    }
}
