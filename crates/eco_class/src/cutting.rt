//! The lines of a text, and the words of a line.
ghost use Rattle.std.specs.Prelude.{◌≡◌, ◌<◌, ◌≤◌, ◌==◌, ◌∷◌, [], not, slice_index, length, position, MatchOption};
ghost use Rattle.std.specs.List.{position_or_len};
ghost use Rattle.std.specs.Str.Lines.{strip_carriage_return};
ghost use Rattle.eco_class.specs.Cutting.{is_blank, lines_of, without_first, words_of};

// A line of a text or a word of a line, and what stands behind it.
#[derive(Drop)]
pub(crate) struct Piece<'a> {
    pub(crate) text: &'a [u8],
    pub(crate) behind: &'a [u8],
}

// The first line of a text, if it has one.
pub(crate) fn next_line(text: &[u8]) -> Option<Piece<'_>>
    ensures lines { MatchOption result (lines_of text.now ≡ []) (λ line. (lines_of text.now ≡ line.text.now ∷ lines_of line.behind.now) × (length line.behind.now < length text.now)) }
{
    if text.is_empty() {
        return None;
    }
    let (line, rest) = text.split_at(line_len(text));
    Some(Piece {
        text: line,
        behind: without_first(rest),
    })
}

// What stands behind the first byte, if there is one.
fn without_first(bytes: &[u8]) -> &[u8]
    ensures { result.now ≡ without_first bytes.now }
{
    match bytes.split_first() {
        Some((_, behind)) => behind,
        None => bytes,
    }
}

// How many bytes stand before the first line feed.
fn line_len(text: &[u8]) -> usize
    ensures len { result ≡ position_or_len (λ byte. byte == 10) text.now }
    ensures within { result ≤ length text.now }
{
    first_line_feed(text).unwrap_or(text.len())
}

// The place of the first line feed.
fn first_line_feed(text: &[u8]) -> Option<usize>
    ensures { result ≡ position (λ byte. byte == 10) text.now }
{
    text.iter().position(|byte| *byte == b'\n')
}

// Whether a line is a comment.
pub(crate) fn is_comment(line: &[u8]) -> bool
    ensures { result ≡ (slice_index line.now 0 == 35) }
{
    match line.first() {
        Some(byte) => *byte == b'#',
        None => false,
    }
}

// The line without a carriage return at its end.
pub(crate) fn without_return(line: &[u8]) -> &[u8]
    ensures { result.now ≡ strip_carriage_return line.now }
{
    let len = line.len();
    if len > 0 && line[len - 1] == b'\r' {
        line.split_at(len - 1).0
    } else {
        line
    }
}

// The first word of a line, if it has one.
pub(crate) fn next_word(line: &[u8]) -> Option<Piece<'_>>
    ensures words { MatchOption result (words_of line.now ≡ []) (λ word. (words_of line.now ≡ word.text.now ∷ words_of word.behind.now) × (length word.behind.now < length line.now)) }
{
    let rest = line.split_at(blanks_len(line)).1;
    if rest.is_empty() {
        return None;
    }
    let (text, behind) = rest.split_at(word_len(rest));
    Some(Piece { text, behind })
}

// How many blanks stand before the first other byte.
fn blanks_len(line: &[u8]) -> usize
    ensures len { result ≡ position_or_len (λ byte. not (is_blank byte)) line.now }
    ensures within { result ≤ length line.now }
{
    first_of_word(line).unwrap_or(line.len())
}

// The place of the first byte that is no blank.
fn first_of_word(line: &[u8]) -> Option<usize>
    ensures { result ≡ position (λ byte. not (is_blank byte)) line.now }
{
    line.iter().position(|byte| !is_blank(*byte))
}

// How many bytes stand before the first blank.
fn word_len(line: &[u8]) -> usize
    ensures len { result ≡ position_or_len is_blank line.now }
    ensures within { result ≤ length line.now }
{
    first_blank(line).unwrap_or(line.len())
}

// The place of the first blank.
fn first_blank(line: &[u8]) -> Option<usize>
    ensures { result ≡ position is_blank line.now }
{
    line.iter().position(|byte| is_blank(*byte))
}

// Spaces and tabs stand between words.
fn is_blank(byte: u8) -> bool
    ensures { result ≡ is_blank byte }
{
    byte == b' ' || byte == b'\t'
}
