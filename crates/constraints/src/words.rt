//! Lines and words.

ghost use Rattle.std.specs.Prelude.{◌≡◌, ◌≤◌, ◌<◌, [], ◌∷◌, length, MatchOption};
ghost use Rattle.std.specs.Str.Lines.{strip_carriage_return, lines};
ghost use Rattle.constraints.specs.Words.{from, until, words, uncommented};
ghost use Rattle.constraints.specs.Stops.{stops};

/// The byte at which a part ends.
#[derive(Clone, Copy)]
enum Stop {
    /// At an LF.
    LineFeed,
    /// At `#`.
    Comment,
    /// At what is no blank.
    NotBlank,
    /// At a blank or a dash.
    WordEnd,
}

impl Stop {
    /// Whether the part ends at this byte.
    fn is_at(self, byte: u8) -> bool
        ensures { result ≡ stops self byte }
    {
        match self {
            Stop::LineFeed => byte == b'\n',
            Stop::Comment => byte == b'#',
            Stop::NotBlank => !(byte == b' ' || byte == b'\t'),
            Stop::WordEnd => byte == b' ' || byte == b'\t' || byte == b'-',
        }
    }
}

/// What follows a part.
fn part_after(bytes: &[u8], stop: Stop) -> &[u8]
    ensures value { result.now ≡ from (stops stop) bytes.now }
    ensures shorter { length result.now ≤ length bytes.now }
{
    let mut rest = bytes;
    while let [first, others @ ..] = rest {
        if stop.is_at(*first) {
            return rest;
        }
        rest = others;
    }
    rest
}

/// A part, and what follows it.
#[derive(Clone, Copy)]
struct Part<'a> {
    text: &'a [u8],
    rest: &'a [u8],
}

/// The part at the beginning.
fn part_before(bytes: &[u8], stop: Stop) -> Part<'_>
    ensures text { result.text.now ≡ until (stops stop) bytes.now }
    ensures rest { result.rest.now ≡ from (stops stop) bytes.now }
    ensures shorter { length result.rest.now ≤ length bytes.now }
{
    let rest = part_after(bytes, stop);
    Part {
        text: &bytes[..bytes.len() - rest.len()],
        rest,
    }
}

/// A line without its comment.
pub(crate) fn without_comment(line: &[u8]) -> &[u8]
    ensures { result.now ≡ uncommented line.now }
{
    part_before(line, Stop::Comment).text
}

/// A line without its line break, and what follows that.
#[derive(Clone, Copy)]
pub(crate) struct Line<'a> {
    pub(crate) text: &'a [u8],
    pub(crate) rest: &'a [u8],
}

/// A line without the CR at its end.
fn without_return(line: &[u8]) -> &[u8]
    ensures { result.now ≡ strip_carriage_return line.now }
{
    let length = line.len();
    if length == 0 || line[length - 1] != b'\r' {
        return line;
    }
    &line[..length - 1]
}

/// The first line; none of no bytes.
pub(crate) fn next_line(bytes: &[u8]) -> Option<Line<'_>>
    ensures { MatchOption result (lines bytes.now ≡ []) (λ l. (lines bytes.now ≡ l.text.now ∷ lines l.rest.now) × (length l.rest.now < length bytes.now)) }
{
    if bytes.is_empty() {
        return None;
    }
    let line = part_before(bytes, Stop::LineFeed);
    let [_, rest @ ..] = line.rest else {
        return Some(Line {
            text: line.text,
            rest: line.rest,
        });
    };
    Some(Line {
        text: without_return(line.text),
        rest,
    })
}

/// A word, and what follows it.
#[derive(Clone, Copy)]
pub(crate) struct Word<'a> {
    pub(crate) text: &'a [u8],
    pub(crate) rest: &'a [u8],
}

/// The first word, if there is one.
pub(crate) fn next_word(text: &[u8]) -> Option<Word<'_>>
    ensures { MatchOption result (words text.now ≡ []) (λ w. words text.now ≡ w.text.now ∷ words w.rest.now) }
{
    let text = part_after(text, Stop::NotBlank);
    let [first, others @ ..] = text else {
        return None;
    };
    if *first == b'-' {
        return Some(Word {
            text: &text[..1],
            rest: others,
        });
    }
    let word = part_before(text, Stop::WordEnd);
    Some(Word {
        text: word.text,
        rest: word.rest,
    })
}
