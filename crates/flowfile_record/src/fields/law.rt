//! What the readers owe to the encodings.
ghost use Rattle.std.specs.Prelude.{◌<◌, ◌^◌};
ghost use Rattle.std.specs.Int.{w16, w32, w64, to_be_bytes};
ghost use Rattle.flowfile_record.specs.Encoding.{byte, text, long, numbers, IsNumber, IsText, IsLong, AreNumbers, IsDigest};
ghost use Rattle.flowfile_record.specs.Reading.{byte_at, raw_at, uint_at, number_at, text_at, long_at, numbers_at};
ghost use Rattle.flowfile_record.specs.Field.{IsField};

use crate::DIGEST_SIZE;

/// What is read stood there encoded so, and what is encoded so is read, whatever follows it: for numbers and digests.
pub fn numbers_are_read_as_encoded()
    ensures u8 { IsField byte_at byte (λ n. n < 2 ^ 8) }
    ensures u16 { IsField (uint_at w16) (to_be_bytes w16) (λ n. n < 2 ^ 16) }
    ensures u32 { IsField (uint_at w32) (to_be_bytes w32) (λ n. n < 2 ^ 32) }
    ensures u64 { IsField (uint_at w64) (to_be_bytes w64) (λ n. n < 2 ^ 64) }
    ensures number { IsField number_at (to_be_bytes w64) IsNumber }
    ensures digest { IsField (raw_at DIGEST_SIZE) (λ digest. digest) IsDigest }
{}

/// The same of texts and lists.
pub fn texts_are_read_as_encoded()
    ensures text { IsField text_at text IsText }
    ensures long { IsField long_at long IsLong }
    ensures numbers { IsField numbers_at numbers AreNumbers }
{}
