//! A field at the end of some bytes that have room for it.
ghost use Rattle.std.specs.Prelude.{◌≡◌, ◌+◌, ◌<◌, ◌≤◌, ◌^◌, ◌++◌, length, vec_len, vec_capacity};
ghost use Rattle.std.specs.Int.{w16, w32, w64, byte_len, to_be_bytes};
ghost use Rattle.flowfile_record.specs.Encoding as encoding;

/// Bytes as they are.
pub fn put(out: &mut Vec<u8>, bytes: &[u8])
    requires { vec_len out.old + length bytes.now ≤ vec_capacity out.old }
    ensures items { out.new.items ≡ out.old.items ++ bytes.now }
    ensures len { vec_len out.new ≡ vec_len out.old + length bytes.now }
    ensures capacity { vec_capacity out.old ≤ vec_capacity out.new }
{
    out.extend_from_slice(bytes).unwrap();
}

pub fn put_u8(out: &mut Vec<u8>, byte: u8)
    requires { vec_len out.old + 1 ≤ vec_capacity out.old }
    ensures items { out.new.items ≡ out.old.items ++ encoding.byte byte }
    ensures len { vec_len out.new ≡ vec_len out.old + 1 }
    ensures capacity { vec_capacity out.old ≤ vec_capacity out.new }
{
    put(out, &[byte]);
}

pub fn put_u16(out: &mut Vec<u8>, number: u16)
    requires { vec_len out.old + byte_len w16 ≤ vec_capacity out.old }
    ensures items { out.new.items ≡ out.old.items ++ to_be_bytes w16 number }
    ensures len { vec_len out.new ≡ vec_len out.old + byte_len w16 }
    ensures capacity { vec_capacity out.old ≤ vec_capacity out.new }
{
    put(out, &number.to_be_bytes());
}

pub fn put_u32(out: &mut Vec<u8>, number: u32)
    requires { vec_len out.old + byte_len w32 ≤ vec_capacity out.old }
    ensures items { out.new.items ≡ out.old.items ++ to_be_bytes w32 number }
    ensures len { vec_len out.new ≡ vec_len out.old + byte_len w32 }
    ensures capacity { vec_capacity out.old ≤ vec_capacity out.new }
{
    put(out, &number.to_be_bytes());
}

pub fn put_u64(out: &mut Vec<u8>, number: u64)
    requires { vec_len out.old + byte_len w64 ≤ vec_capacity out.old }
    ensures items { out.new.items ≡ out.old.items ++ to_be_bytes w64 number }
    ensures len { vec_len out.new ≡ vec_len out.old + byte_len w64 }
    ensures capacity { vec_capacity out.old ≤ vec_capacity out.new }
{
    put(out, &number.to_be_bytes());
}

/// A text behind its length in two bytes.
pub fn put_text(out: &mut Vec<u8>, text: &str)
    requires text { length text.now < 2 ^ 16 }
    requires room { vec_len out.old + byte_len w16 + length text.now ≤ vec_capacity out.old }
    ensures items { out.new.items ≡ out.old.items ++ encoding.text text.now }
    ensures len { vec_len out.new ≡ vec_len out.old + byte_len w16 + length text.now }
    ensures capacity { vec_capacity out.old ≤ vec_capacity out.new }
{
    put_u16(out, text.len() as u16);
    put(out, text.as_bytes());
}

/// A text behind its length in four bytes.
pub fn put_long(out: &mut Vec<u8>, text: &str)
    requires text { length text.now < 2 ^ 32 }
    requires room { vec_len out.old + byte_len w32 + length text.now ≤ vec_capacity out.old }
    ensures items { out.new.items ≡ out.old.items ++ encoding.long text.now }
    ensures len { vec_len out.new ≡ vec_len out.old + byte_len w32 + length text.now }
    ensures capacity { vec_capacity out.old ≤ vec_capacity out.new }
{
    put_u32(out, text.len() as u32);
    put(out, text.as_bytes());
}

/// A list of numbers, behind its count in four bytes.
#[tactic(auto, using(crate::proofs::Sizes::numbers_size))]
pub fn put_numbers(out: &mut Vec<u8>, numbers: &[u64])
    requires numbers { length numbers.now < 2 ^ 32 }
    requires room { vec_len out.old + length (encoding.numbers numbers.now) ≤ vec_capacity out.old }
    ensures items { out.new.items ≡ out.old.items ++ encoding.numbers numbers.now }
    ensures len { vec_len out.new ≡ vec_len out.old + length (encoding.numbers numbers.now) }
    ensures capacity { vec_capacity out.old ≤ vec_capacity out.new }
{
    put_u32(out, numbers.len() as u32);
    for number in numbers {
        put_u64(out, *number);
    }
}
