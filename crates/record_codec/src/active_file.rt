//! Flow files with the queue that they are active in.
ghost use Rattle.std.specs.Prelude.{◌≡◌, ℕ, ◌+◌, ◌≤◌, ◌++◌, length, vec_len, vec_capacity, IsTrue, is_ok, IfOk, IsErrOf, IsOk, OnOk, OnErr, Ok};
ghost use Rattle.flowfile_record.specs.Field.{HasOneEncoding};
ghost use Rattle.flowfile_record.specs.Reading.{Gives, Answers, answer, whole};
ghost use Rattle.record_codec.specs.FileEncoding.{IsFlowFile};
ghost use Rattle.flowfile_record.specs.declared.stored.ActiveFile.{ActiveFile as Active};
ghost use Rattle.record_codec.specs.ActiveFile.{active, active_file, active_file_at, active_front_at, IsActiveFile};

use crate::flow_file::{file_size, put_flow_file, read_flow_file};
use flowfile_record::fields::{FieldError, put_u16, read_u16};
use flowfile_record::{ActiveFile, CodecError, FlowFile};
use std::alloc::{AllocError, Global};

/// How many bytes the encoding of an active flow file has.
#[tactic(auto, using(crate::proofs::Sizes::active_size, crate::proofs::Sizes::file_most))]
pub fn active_file_size(file: &FlowFile) -> u64
    requires { IsFlowFile file.now }
    ensures { (connection : ℕ) → result ≡ length (active_file (active connection file.now)) }
{
    2 + file_size(file)
}

/// Appends the one encoding of a flow file that is active in this connection. It fails only where there is less room
/// than `active_file_size` tells, and then the bytes stay.
pub fn write_active_file(
    out: &mut Vec<u8>,
    connection: u16,
    file: &FlowFile,
) -> Result<(), AllocError>
    requires { IsFlowFile file.now }
    ensures ok { OnOk result (out.new.items ≡ out.old.items ++ active_file (active connection file.now)) }
    ensures err { OnErr result (out.new.items ≡ out.old.items) }
    ensures room { vec_len out.old + length (active_file (active connection file.now)) ≤ vec_capacity out.old
        → IsOk result }
    ensures capacity { vec_capacity out.old ≤ vec_capacity out.new }
{
    out.reserve(active_file_size(file) as usize)?;
    put_active_file(out, connection, file);
    Ok(())
}

/// The active flow file that the bytes encode, all of them; else `Form`, at the first field that can't be read, or at
/// what is left over.
pub fn read_active_file(alloc: Global, bytes: &[u8]) -> Result<ActiveFile, CodecError>
    // What is read is encoded so.
    ensures found { IfOk result (λ active. IsActiveFile active × (bytes.now ≡ active_file active)) }
    // What is encoded so is read, unless memory runs out.
    ensures only { (active : Active) → IsActiveFile active → bytes.now ≡ active_file active
        → Answers result (Ok active) }
    // Which offset can't be read.
    ensures exact { Answers result (answer (length bytes.now) (whole active_file_at bytes.now)) }
    // Memory is taken only for attributes, behind a first pair that can be read.
    ensures memory { IsErrOf result CodecError.Memory → IsTrue (is_ok (active_front_at bytes.now)) }
{
    read_answer(alloc, bytes)
}

/// One active flow file has one encoding, and no encoding is a proper front of another.
pub fn active_files_have_one_encoding()
    ensures { HasOneEncoding active_file IsActiveFile }
{}

fn read_answer(alloc: Global, bytes: &[u8]) -> Result<ActiveFile, CodecError>
    ensures exact { Answers result (answer (length bytes.now) (whole active_file_at bytes.now)) }
    ensures memory { IsErrOf result CodecError.Memory → IsTrue (is_ok (active_front_at bytes.now)) }
{
    match read_all(alloc, bytes) {
        Ok(active) => Ok(active),
        Err(error) => Err(error.within(bytes)),
    }
}

fn read_all(alloc: Global, bytes: &[u8]) -> Result<ActiveFile, FieldError>
    ensures read { Gives (λ active. active) result (whole active_file_at bytes.now) }
    ensures memory { IsErrOf result FieldError.Memory → IsTrue (is_ok (active_front_at bytes.now)) }
{
    let (active, rest) = read_fields(alloc, bytes)?;
    if !rest.is_empty() {
        return Err(FieldError::Form {
            left: rest.len() as u64,
        });
    }
    Ok(active)
}

#[tactic(auto, unfolding(crate::specs::ActiveFile::active_file_at))]
pub(crate) fn read_fields(alloc: Global, bytes: &[u8]) -> Result<(ActiveFile, &[u8]), FieldError>
    ensures read { Gives (λ x. (x.0, x.1.now)) result (active_file_at bytes.now) }
    ensures memory { IsErrOf result FieldError.Memory → IsTrue (is_ok (active_front_at bytes.now)) }
{
    let (connection, rest) = read_u16(bytes)?;
    let (file, rest) = read_flow_file(alloc, rest)?;
    Ok((ActiveFile { connection, file }, rest))
}

#[tactic(auto, unfolding(crate::specs::ActiveFile::active_file), using(crate::proofs::Sizes::active_size))]
pub(crate) fn put_active_file(out: &mut Vec<u8>, connection: u16, file: &FlowFile)
    requires file { IsFlowFile file.now }
    requires room { vec_len out.old + length (active_file (active connection file.now)) ≤ vec_capacity out.old }
    ensures items { out.new.items ≡ out.old.items ++ active_file (active connection file.now) }
    ensures len { vec_len out.new ≡ vec_len out.old + length (active_file (active connection file.now)) }
    ensures capacity { vec_capacity out.old ≤ vec_capacity out.new }
{
    put_u16(out, connection);
    put_flow_file(out, file);
}
