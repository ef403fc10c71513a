//! A text or a run of bytes that contracts see as a list.

ghost use Rattle.std.specs.Prelude.{◌≡◌, ◌↔◌, ℕ, List, [], length, IsTrue};

use std::marker::Model;

/// Bytes: a text, a name or the content of a file. Contracts see the bytes in order.
pub struct Bytes {
    bytes: Vec<u8>,
}

// Written out: a derived drop is proved anew in each crate above.
impl Drop for Bytes {
    fn drop(self) {
        let Bytes { bytes: _ } = self;
    }
}

impl Model for Bytes {
    ghost Value = { List ℕ };

    ghost view = { λ b. b.bytes.items };
}

impl Bytes {
    /// The bytes as a slice.
    pub fn as_slice(&self) -> &[u8]
        ensures { result.now ≡ self.now }
    {
        self.bytes.as_slice()
    }

    /// How many bytes there are.
    pub fn len(&self) -> usize
        ensures { result ≡ length self.now }
    {
        self.bytes.len()
    }

    /// Whether there is none.
    pub fn is_empty(&self) -> bool
        ensures { IsTrue result ↔ (self.now ≡ []) }
    {
        self.bytes.is_empty()
    }

    /// The vector that the bytes stood in.
    fn into_bytes(self) -> Vec<u8>
        ensures { result.items ≡ self }
    {
        let Bytes { bytes } = self;
        bytes
    }
}

impl From<Vec<u8>> for Bytes {
    ghost from_gives = { λ v b. b ≡ v.items };

    /// The bytes of a vector, without taking memory.
    fn from(bytes: Vec<u8>) -> Self {
        Bytes { bytes }
    }
}

impl From<Bytes> for Vec<u8> {
    ghost from_gives = { λ b v. v.items ≡ b };

    /// The vector that the bytes stood in, without taking memory.
    fn from(bytes: Bytes) -> Self {
        bytes.into_bytes()
    }
}
