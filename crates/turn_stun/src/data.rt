//! Bytes that are owned.

ghost use Rattle.std.specs.Prelude.{◌≡◌};

use std::convert::AsSlice;
use std::marker::Model;

/// The bytes of a packet that this side makes. Contracts see it as these bytes.
#[derive(Debug, Drop)]
pub struct Data {
    bytes: Vec<u8>,
}

impl Model for Data {
    ghost use Rattle.std.specs.Prelude.{ℕ, List};

    ghost Value = { List ℕ };

    ghost view = { λ owned. owned.bytes.items };
}

impl Data {
    /// The bytes.
    pub fn as_bytes(&self) -> &[u8]
        ensures { result.now ≡ self.now }
    {
        self.bytes.as_slice()
    }

    /// Returns the vector of the bytes.
    pub fn into_bytes(self) -> Vec<u8>
        ensures { result.items ≡ self }
    {
        self.bytes
    }
}

impl From<Vec<u8>> for Data {
    ghost from_gives = { λ bytes owned. owned ≡ bytes.items };

    fn from(bytes: Vec<u8>) -> Data {
        Data { bytes }
    }
}

impl AsSlice<u8> for Data {
    ghost items = { λ owned. owned };

    fn as_slice(&self) -> &[u8] {
        self.bytes.as_slice()
    }
}
