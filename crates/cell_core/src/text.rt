//! Texts without a zero byte.
ghost use Rattle.std.specs.Prelude.{◌≡◌, ◌↔◌, [], length, IsTrue, IfOk, IfErr, OnErr, MatchResult};
ghost use Rattle.cell_core.specs.Text.{IsZeroFree};

use std::alloc::{AllocError, Global};
use std::marker::Model;

/// A text: a string of bytes without a zero byte, as names, tags and comments have them. Contracts see its bytes.
#[derive(Debug, Drop)]
pub struct Text {
    bytes: Vec<u8>,
}

impl Model for Text {
    ghost use Rattle.std.specs.Prelude.{ℕ, List};
    ghost use Rattle.cell_core.specs.Text.{IsZeroFree};

    ghost Value = { List ℕ };

    ghost view = { λ t. t.bytes.items };

    ghost invariant = { λ t. IsZeroFree t.bytes.items };
}

impl Text {
    /// The empty text.
    pub fn new(alloc: Global) -> Text
        ensures empty { result ≡ [] }
    {
        Text {
            bytes: Vec::new(alloc),
        }
    }

    /// The text of these bytes, which have no zero among them.
    pub fn from_zero_free(bytes: Vec<u8>) -> Text
        requires { IsZeroFree bytes.items }
        ensures bytes { result ≡ bytes.items }
    {
        Text { bytes }
    }

    /// The text of these bytes, or the bytes themselves if one of them is zero.
    pub fn try_new(bytes: Vec<u8>) -> Result<Text, Vec<u8>>
        ensures ok { IfOk result (λ text. text ≡ bytes.items) }
        ensures err { IfErr result (λ given. given ≡ bytes) }
        ensures decides { MatchResult result (λ _. IsZeroFree bytes.items) (λ _. IsZeroFree bytes.items → ⊥) }
    {
        if is_zero_free(bytes.as_slice()) {
            Ok(Text { bytes })
        } else {
            Err(bytes)
        }
    }

    /// The bytes of the text.
    pub fn as_bytes(&self) -> &[u8]
        ensures bytes { result.now ≡ self.now }
        ensures zero_free { IsZeroFree self.now }
    {
        self.bytes.as_slice()
    }

    /// The bytes of the text, with the memory that it had.
    pub fn into_bytes(self) -> Vec<u8>
        ensures bytes { result.items ≡ self }
        ensures zero_free { IsZeroFree self }
    {
        let Text { bytes } = self;
        bytes
    }

    /// How many bytes the text has.
    pub fn len(&self) -> usize
        ensures length { result ≡ length self.now }
    {
        self.bytes.len()
    }

    /// Whether the text has no bytes.
    pub fn is_empty(&self) -> bool
        ensures empty { IsTrue result ↔ (self.now ≡ []) }
    {
        self.bytes.is_empty()
    }

    /// A text of the same bytes. It fails only for want of memory.
    pub fn copied(&self, alloc: Global) -> Result<Text, AllocError>
        ensures same { IfOk result (λ text. text ≡ self.now) }
    {
        Ok(Text {
            bytes: Vec::from_slice(alloc, self.bytes.as_slice())?,
        })
    }
}

/// Whether no byte is zero.
pub fn is_zero_free(bytes: &[u8]) -> bool
    ensures { IsTrue result ↔ IsZeroFree bytes.now }
{
    bytes.iter().all(|byte| *byte != 0)
}
