//! What is read of the contents of the files that a session takes.
ghost use Rattle.std.specs.Prelude.{◌≡◌, ◌≢◌, ◌⊎◌, ◌<◌, ◌++◌, ◌∷◌, [], cond, get_or, length, All, Contains, Option, None, Some, IfOk, OnOk, IfErr, IfSome, IsErrOf, IsTrue};
ghost use Rattle.disk_trait.specs.Faults.{CountsFaults};
ghost use Rattle.disk_trait.specs.Images.{Stays};
ghost use Rattle.disk_trait.specs.declared.damage.Damage.{Damage as TheDamage};
ghost use Rattle.flowfile_record.specs.declared.flow_file.FlowFile.{FlowFile as TheFile};
ghost use Rattle.content_repo.specs.Claims.{IsRead, content_in};
ghost use Rattle.engine_session.specs.Handing.{AreReadOf, HaveRead, files_fit_a_content};
ghost use Rattle.machine_model.specs.declared.flow.Flow.{Flow as TheFlow};
ghost use Rattle.store_core.specs.Store.{live_in};
ghost use Rattle.engine_steps.specs.Errors.{IsReadBy};
ghost use Rattle.run_law.specs.Work.{DoesNotTell, IsAtWork};
ghost use Rattle.engine_steps.specs.HandingParts.{ReadsContents};

use crate::EngineError;
use disk_trait::Disk;
use engine_session::{ReadList, fit_a_content};
use flowfile_record::{Bytes, ContentRef, FlowFile};
use std::alloc::{AllocError, Global};
use store_core::{Store, StoreError};

/// What a session is handed of the contents of these files: each content, or none where together they are larger than
/// one may be. Each is read all the same, so that damage is told, and files of one content are handed one read.
pub(crate) fn read_contents<D: Disk>(
    alloc: Global,
    store: &mut Store,
    disk: &mut D,
    files: &[FlowFile],
) -> Result<ReadList, EngineError>
    requires work { (flow : TheFlow) × IsAtWork flow D.tells D.held D.moment D.images store.old disk.old }
    requires live { All (λ file. Contains (live_in store.old) file.content) files.now }
    ensures read { IfOk result (HaveRead (files_fit_a_content files.now) files.now) }
    ensures told { IfOk result (λ contents. IsTrue D.tells
        → AreReadOf (content_in (D.held disk.old)) (files_fit_a_content files.now) files.now contents) }
    ensures contents { ReadsContents result D.tells D.held D.moment D.images D.faults store.old store.new
        disk.old disk.new }
    ensures kinds { IfErr result (λ error. (error ≡ EngineError.Disk) ⊎ (error ≡ EngineError.Memory)
        ⊎ ((damage : TheDamage) × (error ≡ EngineError.Damaged damage))) }
{
    let fits = fit_a_content(files);
    let mut contents = ReadList::new(alloc);
    for place in 0..files.len() {
        let read = read_next(
            alloc,
            store,
            disk,
            &files[..place],
            contents.as_slice(),
            &files[place],
            fits,
        )?;
        contents.push(read)?;
    }
    Ok(contents)
}

// What a session is handed of one file's content more, behind those of some files.
fn read_next<D: Disk>(
    alloc: Global,
    store: &mut Store,
    disk: &mut D,
    files: &[FlowFile],
    contents: &[Option<Bytes>],
    file: &FlowFile,
    fits: bool,
) -> Result<Option<Bytes>, EngineError>
    requires work { (flow : TheFlow) × IsAtWork flow D.tells D.held D.moment D.images store.old disk.old }
    requires live { Contains (live_in store.old) file.now.content }
    requires count { length contents.now ≡ length files.now }
    ensures read { IfOk result (λ read. HaveRead fits files.now contents.now
        → HaveRead fits (files.now ++ file.now ∷ []) (contents.now ++ read ∷ [])) }
    ensures told { IfOk result (λ read. IsTrue D.tells
        → AreReadOf (content_in (D.held disk.old)) fits files.now contents.now
        → AreReadOf (content_in (D.held disk.old)) fits (files.now ++ file.now ∷ []) (contents.now ++ read ∷ [])) }
    ensures contents { ReadsContents result D.tells D.held D.moment D.images D.faults store.old store.new
        disk.old disk.new }
    ensures kinds { IfErr result (λ error. (error ≡ EngineError.Disk) ⊎ (error ≡ EngineError.Memory)
        ⊎ ((damage : TheDamage) × (error ≡ EngineError.Damaged damage))) }
{
    match place_of(files, &file.content) {
        Some(place) => Ok(copy_of(alloc, &contents[place])?),
        None => {
            let bytes = read_content(store, disk, &file.content)?;
            Ok(handed(bytes, fits))
        }
    }
}

// What a session is handed of a content that was read.
fn handed(bytes: Vec<u8>, fits: bool) -> Option<Bytes>
    ensures { result ≡ cond fits (Some bytes.items) None }
{
    if fits { Some(Bytes::from(bytes)) } else { None }
}

fn copy_of(alloc: Global, read: &Option<Bytes>) -> Result<Option<Bytes>, AllocError>
    ensures { IfOk result (λ copy. copy ≡ read.now) }
{
    match read {
        Some(bytes) => Ok(Some(Bytes::from_slice(alloc, bytes.as_slice())?)),
        None => Ok(None),
    }
}

// The place of the first of these files that has this content.
fn place_of(files: &[FlowFile], content: &ContentRef) -> Option<usize>
    ensures found { IfSome result (λ place. (place < length files.now)
        × ((or : TheFile) → (get_or files.now place or).content ≡ content.now)) }
    ensures none { result ≡ None → All (λ file. file.content ≢ content.now) files.now }
{
    for place in 0..files.len() {
        if files[place].content == *content {
            return Some(place);
        }
    }
    None
}

// The bytes of a content that is kept.
fn read_content<D: Disk>(
    store: &mut Store,
    disk: &mut D,
    at: &ContentRef,
) -> Result<Vec<u8>, EngineError>
    requires work { (flow : TheFlow) × IsAtWork flow D.tells D.held D.moment D.images store.old disk.old }
    requires live { Contains (live_in store.old) at.now }
    ensures read { IfOk result (λ bytes. IsRead D.tells (D.held disk.old) at.now bytes.items) }
    ensures undamaged { (damage : TheDamage) → IsErrOf result (EngineError.Damaged damage) → DoesNotTell D.tells }
    ensures store { IsReadBy result store.old store.new }
    ensures stays { Stays D.held D.moment D.images disk.old disk.new }
    ensures kinds { IfErr result (λ error. (error ≡ EngineError.Disk) ⊎ (error ≡ EngineError.Memory)
        ⊎ ((damage : TheDamage) × (error ≡ EngineError.Damaged damage))) }
    ensures cause { CountsFaults (D.faults disk.old) (D.faults disk.new) (IsErrOf result EngineError.Disk) }
{
    match store.read(disk, at) {
        Ok(bytes) => Ok(bytes),
        Err(StoreError::Disk | StoreError::MustReopen) => Err(EngineError::Disk),
        Err(StoreError::Damaged(damage)) => Err(EngineError::Damaged(damage)),
        Err(StoreError::Memory) => Err(EngineError::Memory),
        // Reading passes no limit, and asks for no flow.
        Err(StoreError::Limit(_) | StoreError::OtherFlow { .. }) => unreachable!(),
    }
}
