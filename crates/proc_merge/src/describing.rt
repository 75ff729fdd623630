//! The attributes of the joined file.
ghost use Rattle.std.specs.Prelude.{◌≡◌, ◌&&◌, IfOk, IsTrue, length, not};
ghost use Rattle.std.specs.Option.{option_map};
ghost use Rattle.flowfile_record.specs.Attributes.{has_key_length, is_uuid};
ghost use Rattle.machine_model.specs.Making.{with_set};
ghost use Rattle.machine_model.specs.MergeContent.{counted, named_as_whole, without_fragment};
ghost use Rattle.process_session.specs.Bench.{bench_attributes, made_size};
ghost use Rattle.process_session.specs.Changes.{with_attributes};
ghost use Rattle.proc_merge.specs.Joining.{HasJoined, IsDescribed, of_parents, described, name_of_whole};

use flowfile_record::Attributes;
use machine_model::MergeStrategy;
use process_session::{FILENAME_SIZE, Session, SessionError};
use std::alloc::{AllocError, Global};

/// What attributes take as a made file's: where they have no `filename`, one comes later.
pub(crate) fn made_size(attributes: &Attributes) -> u64
    ensures { result ≡ made_size attributes.now }
{
    let size = attributes.size();
    if attributes.get("filename").is_none() {
        size + FILENAME_SIZE
    } else {
        size
    }
}

/// Makes of the attributes that its parents share those of the joined file, and says whether it may have them.
pub(crate) fn describe(
    alloc: Global,
    strategy: MergeStrategy,
    session: &mut Session,
    file: u32,
    shared: &Attributes,
) -> Result<bool, AllocError>
    requires joined { HasJoined session.old file }
    requires shared { shared.now ≡ bench_attributes session.old file }
    ensures { IfOk result (λ done. IsDescribed session.old session.new file
        (described strategy (length session.old.sources) shared.now) done) }
{
    remove_fragment(session, file);
    if let Some(name) = name_of_whole(strategy, shared) {
        if !set(session, file, "filename", name)? {
            return Ok(false);
        }
    }
    count(alloc, session, file)
}

/// The name of the whole that the parents were parts of, where it is to be the joined file's.
fn name_of_whole(strategy: MergeStrategy, shared: &Attributes) -> Option<&str>
    ensures { option_map (λ name. name.now) result ≡ name_of_whole strategy shared.now }
{
    match strategy {
        MergeStrategy::BinPacking => None,
        MergeStrategy::Defragment => shared.get("segment.original.filename"),
    }
}

/// The joined file is no fragment.
fn remove_fragment(session: &mut Session, file: u32)
    requires { HasJoined session.old file }
    ensures { session.new ≡ with_attributes session.old file (without_fragment (bench_attributes session.old file)) }
{
    session
        .remove_attribute(file, "fragment.identifier")
        .unwrap();
    session.remove_attribute(file, "fragment.index").unwrap();
    session.remove_attribute(file, "fragment.count").unwrap();
}

/// Tells the joined file how many its parents are, and not what their whole was called.
fn count(alloc: Global, session: &mut Session, file: u32) -> Result<bool, AllocError>
    requires { HasJoined session.old file }
    ensures { IfOk result (λ done. IsDescribed session.old session.new file
        (counted (length session.old.sources) of_parents (bench_attributes session.old file)) done) }
{
    session
        .remove_attribute(file, "segment.original.filename")
        .unwrap();
    let count = session.taken();
    let count = format!(in alloc; "{count}")?;
    set(session, file, "merge.count", count.as_str())
}

/// Sets an attribute of the joined file, and says whether it may have it.
fn set(session: &mut Session, file: u32, key: &str, value: &str) -> Result<bool, AllocError>
    requires joined { HasJoined session.old file }
    requires key { IsTrue (has_key_length key.now && not (is_uuid key.now)) }
    ensures { IfOk result (λ done. IsDescribed session.old session.new file
        (with_set of_parents (bench_attributes session.old file) (key.now, value.now)) done) }
{
    let Err(error) = session.put_attribute(file, key, value) else {
        return Ok(true);
    };
    match error {
        SessionError::Memory => Err(AllocError),
        _ => Ok(false),
    }
}
