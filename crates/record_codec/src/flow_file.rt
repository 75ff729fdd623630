//! Flow files.
ghost use Rattle.std.specs.Prelude.{◌≡◌, ℕ, ◌+◌, ◌≤◌, ◌++◌, length, vec_len, vec_capacity, IsTrue, is_ok, IfOk, IsErrOf, IsOk, OnOk, OnErr, Ok};
ghost use Rattle.flowfile_record.specs.Field.{HasOneEncoding};
ghost use Rattle.flowfile_record.specs.Reading.{Reads, Gives, Answers, answer, whole};
ghost use Rattle.flowfile_record.specs.declared.flow_file.FlowFile.{FlowFile as File};
ghost use Rattle.record_codec.specs.FileReading.{file_number_at, flow_file_at, file_front_at};
ghost use Rattle.record_codec.specs.FileEncoding.{flow_file, IsFlowFile};

use crate::attributes::{put_attributes, read_attributes};
use crate::content::{put_content_ref, read_content_ref};
use flowfile_record::fields::{FieldError, Unread, put_u64, read_number, read_u64};
use flowfile_record::{CodecError, DIGEST_SIZE, FlowFile};
use std::alloc::{AllocError, Global};

// What a flow file's encoding has beside the attributes, in bytes: six numbers, the slot and the digest.
const BESIDE_ATTRIBUTES: u64 = 52 + DIGEST_SIZE as u64;

/// How many bytes the encoding of a flow file has.
#[tactic(auto, using(crate::proofs::Sizes::flow_file_size))]
pub fn file_size(file: &FlowFile) -> u64
    requires { IsFlowFile file.now }
    ensures { result ≡ length (flow_file file.now) }
{
    file.attributes.size() + BESIDE_ATTRIBUTES
}

/// Appends the one encoding of a flow file. It fails only where there is less room than `file_size` tells, and then the
/// bytes stay.
pub fn write_file(out: &mut Vec<u8>, file: &FlowFile) -> Result<(), AllocError>
    requires { IsFlowFile file.now }
    ensures ok { OnOk result (out.new.items ≡ out.old.items ++ flow_file file.now) }
    ensures err { OnErr result (out.new.items ≡ out.old.items) }
    ensures room { vec_len out.old + length (flow_file file.now) ≤ vec_capacity out.old → IsOk result }
    ensures capacity { vec_capacity out.old ≤ vec_capacity out.new }
{
    out.reserve(file_size(file) as usize)?;
    put_flow_file(out, file);
    Ok(())
}

/// The flow file that the bytes encode, all of them.
pub fn read_file(alloc: Global, bytes: &[u8]) -> Result<FlowFile, CodecError>
    // What is read is encoded so.
    ensures found { IfOk result (λ file. IsFlowFile file × (bytes.now ≡ flow_file file)) }
    // What is encoded so is read, unless memory runs out.
    ensures only { (file : File) → IsFlowFile file → bytes.now ≡ flow_file file → Answers result (Ok file) }
    // Which offset can't be read.
    ensures exact { Answers result (answer (length bytes.now) (whole flow_file_at bytes.now)) }
    // Memory is taken only for attributes, behind a first pair that can be read.
    ensures memory { IsErrOf result CodecError.Memory → IsTrue (is_ok (file_front_at bytes.now)) }
{
    read_answer(alloc, bytes)
}

/// One flow file has one encoding, and no encoding is a proper front of another.
pub fn flow_files_have_one_encoding()
    ensures { HasOneEncoding flow_file IsFlowFile }
{}

fn read_answer(alloc: Global, bytes: &[u8]) -> Result<FlowFile, CodecError>
    ensures exact { Answers result (answer (length bytes.now) (whole flow_file_at bytes.now)) }
    ensures memory { IsErrOf result CodecError.Memory → IsTrue (is_ok (file_front_at bytes.now)) }
{
    match read_all(alloc, bytes) {
        Ok(file) => Ok(file),
        Err(error) => Err(error.within(bytes)),
    }
}

fn read_all(alloc: Global, bytes: &[u8]) -> Result<FlowFile, FieldError>
    ensures read { Gives (λ file. file) result (whole flow_file_at bytes.now) }
    ensures memory { IsErrOf result FieldError.Memory → IsTrue (is_ok (file_front_at bytes.now)) }
{
    let (file, rest) = read_flow_file(alloc, bytes)?;
    if !rest.is_empty() {
        return Err(FieldError::Form {
            left: rest.len() as u64,
        });
    }
    Ok(file)
}

#[tactic(auto, unfolding(crate::specs::FileReading::flow_file_at))]
pub(crate) fn read_flow_file(alloc: Global, bytes: &[u8]) -> Result<(FlowFile, &[u8]), FieldError>
    ensures read { Gives (λ x. (x.0, x.1.now)) result (flow_file_at bytes.now) }
    ensures memory { IsErrOf result FieldError.Memory → IsTrue (is_ok (file_front_at bytes.now)) }
{
    let (number, rest) = read_file_number(bytes)?;
    let (attributes, rest) = read_attributes(alloc, rest)?;
    let (content, rest) = read_content_ref(rest)?;
    let (entered, rest) = read_u64(rest)?;
    let (penalty_end, rest) = read_u64(rest)?;
    let (arrival, rest) = read_number(rest)?;
    let file = FlowFile {
        number,
        attributes,
        content,
        entered,
        penalty_end,
        arrival,
    };
    Ok((file, rest))
}

#[tactic(auto, unfolding(crate::specs::FileReading::file_number_at))]
fn read_file_number(bytes: &[u8]) -> Result<(u64, &[u8]), Unread>
    ensures { Reads (λ x. (x.0, x.1.now)) result (file_number_at bytes.now) }
{
    let (number, rest) = read_number(bytes)?;
    if number < 1 {
        return Err(Unread {
            left: bytes.len() as u64,
        });
    }
    Ok((number, rest))
}

#[tactic(auto, unfolding(crate::specs::FileEncoding::flow_file), using(crate::proofs::Sizes::parts_of_file))]
pub(crate) fn put_flow_file(out: &mut Vec<u8>, file: &FlowFile)
    requires file { IsFlowFile file.now }
    requires room { vec_len out.old + length (flow_file file.now) ≤ vec_capacity out.old }
    ensures items { out.new.items ≡ out.old.items ++ flow_file file.now }
    ensures len { vec_len out.new ≡ vec_len out.old + length (flow_file file.now) }
    ensures capacity { vec_capacity out.old ≤ vec_capacity out.new }
{
    put_u64(out, file.number);
    put_attributes(out, &file.attributes);
    put_content_ref(out, &file.content);
    put_u64(out, file.entered);
    put_u64(out, file.penalty_end);
    put_u64(out, file.arrival);
}
