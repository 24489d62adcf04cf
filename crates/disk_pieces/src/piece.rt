//! Bytes with the offset at which they are to stand.
ghost use Rattle.std.specs.Prelude.{◌≡◌};

use std::marker::Model;

/// Bytes, and the offset in a file from which on they are to stand.
#[derive(Debug, Drop)]
pub struct Piece {
    at: u64,
    bytes: Vec<u8>,
}

impl Model for Piece {
    ghost use Rattle.disk_pieces.specs.Pieces.{Piece as AsPiece};

    ghost Value = { AsPiece };

    ghost view = { λ s. record { at = s.at; bytes = s.bytes.items } };
}

impl Piece {
    /// A piece of these bytes, which begins at this offset.
    pub fn new(at: u64, bytes: Vec<u8>) -> Piece
        ensures { result ≡ record { at = at; bytes = bytes.items } }
    {
        Piece { at, bytes }
    }

    /// The offset of its first byte.
    pub fn at(&self) -> u64
        ensures { result ≡ self.now.at }
    {
        self.at
    }

    /// Its bytes.
    pub fn bytes(&self) -> &[u8]
        ensures { result.now ≡ self.now.bytes }
    {
        &self.bytes
    }
}
