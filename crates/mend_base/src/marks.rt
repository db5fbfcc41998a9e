//! The bytes of a record one behind the other, by its lengths and marks alone.
ghost use Rattle.std.specs.Prelude.{◌≡◌, ◌≤◌, ◌<◌, ◌+◌, length};
ghost use Rattle.mend_base.specs.Marks.{IsCounted, behind_item, due_after, due_in_tag, end_after, ends_line, is_item, line_end, own_after, spot_after, spot_behind, text_after, texts_in};

/// What is due at a byte of a record, by the bytes before it.
#[derive(Clone, Copy, Debug, PartialEq, Eq)]
pub(crate) enum Due {
    /// The first byte of an extra tag, or the zero byte behind the tags.
    Tag,
    /// So many bytes of a tag's name are due.
    Name(u8),
    /// The length of a tag's value.
    Length,
    /// So many bytes of a tag's value are due.
    Value(u8),
    /// The flags of the start.
    Flags,
    /// The FEN of a start, or the zero byte behind it.
    Fen,
    /// A move or a mark.
    Item,
    /// The number of a NAG.
    Number,
    /// The texts of the comments.
    Text,
}

impl Due {
    // What is due behind a byte.
    fn after(self, byte: u8) -> Due
        ensures after { result ≡ due_after self byte }
    {
        match self {
            Due::Tag => due_in_tag(byte),
            Due::Name(left) if left <= 1 => Due::Length,
            Due::Name(left) => Due::Name(left - 1),
            Due::Length if byte == 0 => Due::Tag,
            Due::Length => Due::Value(byte),
            Due::Value(left) if left <= 1 => Due::Tag,
            Due::Value(left) => Due::Value(left - 1),
            Due::Flags if byte % 2 == 0 => Due::Item,
            Due::Flags => Due::Fen,
            Due::Fen if byte == 0 => Due::Item,
            Due::Fen => Due::Fen,
            Due::Item if byte == 11 => Due::Number,
            Due::Item if byte == 15 => Due::Text,
            Due::Item => Due::Item,
            Due::Number => Due::Item,
            Due::Text => Due::Text,
        }
    }

    // Whether a move or a mark is due.
    fn is_item(self) -> bool
        ensures is { result ≡ is_item self }
    {
        matches!(self, Due::Item)
    }
}

// What is due behind the first byte of an extra tag.
fn due_in_tag(byte: u8) -> Due
    ensures after { result ≡ due_in_tag byte }
{
    if byte == 0 {
        return Due::Flags;
    }
    if byte <= 240 {
        return Due::Name(byte);
    }
    if byte == 255 {
        return Due::Value(3);
    }
    Due::Length
}

/// A spot in a record: what is due there, how many bytes were passed, how many variations are open, and how many comments were met. It has the
/// number of the comment that stands there in a line of the depth that is asked for, or 0.
#[derive(Clone, Copy, Debug)]
pub(crate) struct Spot {
    pub(crate) due: Due,
    pub(crate) passed: usize,
    pub(crate) depth: usize,
    pub(crate) comments: usize,
    pub(crate) own: usize,
}

impl Spot {
    /// The spot behind these bytes of a record, with the comment that stands there in a line of this depth.
    pub(crate) fn behind(line: usize, bytes: &[u8]) -> Spot
        ensures behind { result ≡ spot_behind line bytes.now }
        ensures counted { IsCounted result }
        ensures within { result.passed ≤ length bytes.now }
    {
        let mut spot = Spot {
            due: Due::Tag,
            passed: 0,
            depth: 0,
            comments: 0,
            own: 0,
        };
        for byte in bytes {
            spot = spot.after(line, *byte);
        }
        spot
    }

    // The spot behind a byte.
    fn after(self, line: usize, byte: u8) -> Spot
        requires counted { IsCounted self }
        requires room { self.passed < usize.MAX }
        ensures after { result ≡ spot_after line self byte }
        ensures counted { IsCounted result }
        ensures passed { result.passed ≤ self.passed + 1 }
    {
        match self.due {
            Due::Item => self.behind_item(line, byte),
            Due::Text => self,
            due => Spot {
                due: due.after(byte),
                passed: self.passed + 1,
                ..self
            },
        }
    }

    // The spot behind a byte of the moves.
    fn behind_item(self, line: usize, byte: u8) -> Spot
        requires counted { IsCounted self }
        requires room { self.passed < usize.MAX }
        ensures after { result ≡ behind_item line self byte }
    {
        Spot {
            due: Due::Item.after(byte),
            passed: self.passed + 1,
            depth: match byte {
                13 => self.depth + 1,
                14 => self.depth.saturating_sub(1),
                _ => self.depth,
            },
            comments: if byte == 12 {
                self.comments + 1
            } else {
                self.comments
            },
            own: self.own_after(line, byte),
        }
    }

    // The number of the comment that stands behind a byte of the moves in a line of this depth.
    fn own_after(self, line: usize, byte: u8) -> usize
        requires counted { IsCounted self }
        requires room { self.passed < usize.MAX }
        ensures after { result ≡ own_after line self byte }
    {
        match byte {
            12 if self.depth == line => self.comments + 1,
            13 if self.depth + 1 == line => 0,
            11..=14 => self.own,
            _ if self.depth == line => 0,
            _ => self.own,
        }
    }

    // Whether a byte ends a line of this depth.
    fn ends_line(self, line: usize, byte: u8) -> bool
        ensures ends { result ≡ ends_line line self byte }
    {
        self.due.is_item() && (byte == 15 || (byte == 14 && (0 < line && self.depth == line)))
    }

    /// Where the line of this depth ends, from this spot of it on.
    pub(crate) fn line_end(self, line: usize, bytes: &[u8]) -> Spot
        requires counted { IsCounted self }
        requires room { self.passed + length bytes.now ≤ usize.MAX }
        ensures end { result ≡ line_end line self bytes.now }
    {
        let mut end = LineEnd {
            spot: self,
            found: false,
        };
        for byte in bytes {
            end = end.after(line, *byte);
        }
        end.spot
    }
}

// A spot up to which a line was followed, and whether it ends there.
#[derive(Clone, Copy, Debug)]
struct LineEnd {
    spot: Spot,
    found: bool,
}

impl LineEnd {
    // The same with one byte more.
    fn after(self, line: usize, byte: u8) -> LineEnd
        requires counted { IsCounted self.spot }
        requires room { self.spot.passed < usize.MAX }
        ensures after { result ≡ end_after line self byte }
        ensures counted { IsCounted result.spot }
        ensures passed { result.spot.passed ≤ self.spot.passed + 1 }
    {
        if self.found || self.spot.ends_line(line, byte) {
            LineEnd {
                spot: self.spot,
                found: true,
            }
        } else {
            LineEnd {
                spot: self.spot.after(line, byte),
                found: false,
            }
        }
    }
}

/// How many texts are still due, and how many bytes the others took.
#[derive(Clone, Copy, Debug)]
pub(crate) struct TextsLeft {
    pub(crate) due: usize,
    pub(crate) used: usize,
}

impl TextsLeft {
    /// Passes so many texts.
    pub(crate) fn behind(due: usize, bytes: &[u8]) -> TextsLeft
        ensures behind { result ≡ texts_in due bytes.now }
    {
        let mut left = TextsLeft { due, used: 0 };
        for byte in bytes {
            left = left.after(*byte);
        }
        left
    }

    // The same with one byte more.
    fn after(self, byte: u8) -> TextsLeft
        requires room { self.used < usize.MAX }
        ensures after { result ≡ text_after self byte }
        ensures used { result.used ≤ self.used + 1 }
    {
        if self.due == 0 {
            return self;
        }
        TextsLeft {
            due: if byte == 0 { self.due - 1 } else { self.due },
            used: self.used + 1,
        }
    }
}
