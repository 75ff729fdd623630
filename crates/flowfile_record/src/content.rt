//! Where a content stands.
use crate::DIGEST_SIZE;

/// Where a content stands, and what it is: the slot of its resource claim, its place and size there in bytes, and
/// the SHA-256 digest of its bytes.
#[derive(Clone, Copy, Debug, PartialEq, Eq, Drop)]
pub struct ContentRef {
    pub slot: u32,
    pub offset: u64,
    pub size: u64,
    pub digest: [u8; DIGEST_SIZE],
}
