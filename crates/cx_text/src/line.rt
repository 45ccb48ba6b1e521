ghost use Rattle.std.specs.Prelude.{◌≡◌, ◌==◌};
ghost use Rattle.std.specs.List.{list_all, position_or_len};
ghost use Rattle.cx_text.specs.Lines.{lines_of, is_text_byte, without_return};
ghost use Rattle.cx_text.specs.Views.{lines_left};

/// The greatest number of bytes of a line.
pub const LINE_LIMIT: usize = 120;

/// A line of a text.
#[derive(Clone, Copy, Debug)]
pub struct Line<'a> {
    /// The bytes of the line without its end.
    pub bytes: &'a [u8],
    /// Whether the text passes its limit on this line.
    pub over: bool,
}

/// The lines of a text, from the first to the last; made by [`Lines::of`].
#[derive(Clone, Copy, Debug)]
pub struct Lines<'a> {
    rest: &'a [u8],
    over: bool,
}

impl<'a> Lines<'a> {
    /// The lines of `text`, of which no more than one byte past `limit` bytes is looked at.
    pub fn of(limit: usize, text: &'a [u8]) -> Lines<'a>
        ensures { lines_left result ≡ lines_of limit text.now }
    {
        if text.len() <= limit {
            return Lines {
                rest: text,
                over: false,
            };
        }
        Lines {
            rest: &text[..limit + 1],
            over: true,
        }
    }
}

impl<'a> Iterator for Lines<'a> {
    ghost use Rattle.std.specs.Iterator.{YieldsFirstBy, item_count};
    ghost use Rattle.cx_text.specs.Views.{lines_left, line_seen};

    type Item = Line<'a>;

    ghost next_gives = { YieldsFirstBy line_seen lines_left };

    ghost remaining = { item_count lines_left };

    fn next(&mut self) -> Option<Line<'a>> {
        let rest = self.rest;
        let end = feed_at(rest);
        if end < rest.len() {
            let (bytes, _) = rest.split_at(end);
            let (_, after) = rest.split_at(end + 1);
            self.rest = after;
            return Some(Line {
                bytes: without_return(bytes),
                over: self.over & after.is_empty(),
            });
        }
        self.rest = &[];
        if rest.is_empty() {
            return None;
        }
        Some(Line {
            bytes: rest,
            over: self.over,
        })
    }
}

/// Where the first line feed stands; the length where there is none.
fn feed_at(text: &[u8]) -> usize
    ensures { result ≡ position_or_len (λ b. b == 10) text.now }
{
    match text.iter().position(|b| *b == b'\n') {
        Some(at) => at,
        None => text.len(),
    }
}

/// A line without the carriage return that may stand before its line feed.
fn without_return(bytes: &[u8]) -> &[u8]
    ensures { result.now ≡ without_return bytes.now }
{
    match bytes {
        [front @ .., b'\r'] => front,
        _ => bytes,
    }
}

/// Whether all bytes of a line are tabs or printable.
pub fn is_text(bytes: &[u8]) -> bool
    ensures { result ≡ list_all is_text_byte bytes.now }
{
    bytes
        .iter()
        .all(|b| *b == b'\t' || (b' ' <= *b && *b <= b'~'))
}
