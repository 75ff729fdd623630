//! The bytes of a recorded write.
ghost use Rattle.std.specs.Prelude.{◌≡◌};

use std::marker::Model;

/// Bytes that a write wrote.
#[derive(Debug, Drop)]
pub struct DiskBytes {
    bytes: Vec<u8>,
}

impl Model for DiskBytes {
    ghost use Rattle.std.specs.Prelude.{List, ℕ};

    ghost Value = { List ℕ };

    ghost view = { λ written. written.bytes.items };
}

impl DiskBytes {
    pub fn new(bytes: Vec<u8>) -> DiskBytes
        ensures { result ≡ bytes.items }
    {
        DiskBytes { bytes }
    }

    pub fn as_slice(&self) -> &[u8]
        ensures { result.now ≡ self.now }
    {
        self.bytes.as_slice()
    }
}
