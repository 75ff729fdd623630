//! The contents of a change: each is written once, each file that refers to it holds it once more, and those of the files
//! that go are given up.
ghost use Rattle.std.specs.Prelude.{◌≡◌, ℕ, ◌+◌, ◌<◌, ◌≤◌, Bool, [], ◌∷◌, length, map, IsTrue, IfOk, OnOk, IsErr};
ghost use Rattle.disk_trait.specs.Files.{Files};
ghost use Rattle.flowfile_record.specs.declared.stored.Fresh.TheVariants.{Bytes, As};
ghost use Rattle.record_codec.specs.Placeless.{placeless_entry};
ghost use Rattle.content_repo.specs.Claims.{HasSizes};
ghost use Rattle.content_repo.specs.Errors.{RefusesOnFault};
ghost use Rattle.content_repo.specs.Slots.{count_of, size_of, held_in, references_to};
ghost use Rattle.content_repo.specs.declared.content.TheConstants.{HELD_MAX};
ghost use Rattle.kept_state.specs.Changes.{placed_in};
ghost use Rattle.prov_store.specs.State.{ChangesBy};
ghost use Rattle.store_core.specs.Change.{fresh_contents_of};
ghost use Rattle.store_core.specs.Placing.{contents_of, ClaimsGrowBehind, MayPlaceOne, MayShare, IsRecordedAt, PlacesOne, PlacesAll};
ghost use Rattle.store_core.specs.Writing.{fresh_count, KeepsEntry, LeavesSizes, MayPlaceIn};

use content_repo::{Content, ContentError};
use disk_trait::Disk;
use flowfile_record::{ActiveList, ContentRef, Fresh, Placed};
use kept_state::PreparedEntry;
use std::alloc::{AllocError, Global};

/// How many bytes each new content has, by place.
pub(crate) fn fresh_sizes(alloc: Global, placed: &[Placed]) -> Result<Vec<u64>, AllocError>
    ensures { IfOk result (λ sizes. sizes.items ≡ map length (fresh_contents_of placed.now)) }
{
    let mut sizes = Vec::new(alloc);
    for one in placed {
        if let Fresh::Bytes(bytes) = &one.fresh {
            sizes.push(bytes.len())?;
        }
    }
    Ok(sizes)
}

/// Places the contents of these files, which an entry records: a new one is written, and each is held once more. One that
/// several files share is written for the first of them.
pub(crate) fn place_contents<D: Disk>(
    contents: &mut Content,
    disk: &mut D,
    entry: &mut PreparedEntry,
    placed: &[Placed],
) -> Result<(), ContentError>
    requires may { MayPlaceIn entry.old contents.old placed.now }
    requires sizes { IsTrue D.tells → HasSizes contents.old (D.held disk.old) }
    ensures placed { OnOk result (PlacesAll D.tells (D.held disk.new) placed.now contents.old contents.new entry.new) }
    ensures written { OnOk result (LeavesSizes D.tells D.held D.moment contents.new (fresh_count placed.now)
        disk.old disk.new) }
    ensures entry { KeepsEntry placed.now entry.old entry.new }
    ensures grows { ChangesBy D.tells D.held D.moment D.images (ClaimsGrowBehind contents.old) disk.old disk.new }
    ensures refusal { RefusesOnFault result (D.faults disk.old) (D.faults disk.new) }
{
    for (place, one) in placed.iter().enumerate() {
        place_content(contents, disk, entry, place as u64, one)?;
    }
    Ok(())
}

// Places the content of the file that an entry records at a place.
fn place_content<D: Disk>(
    contents: &mut Content,
    disk: &mut D,
    entry: &mut PreparedEntry,
    place: u64,
    one: &Placed,
) -> Result<(), ContentError>
    requires recorded { IsRecordedAt place one.now (placed_in entry.old) }
    requires may { MayPlaceOne contents.old one.now }
    requires shared { (of : ℕ) → one.now.fresh ≡ As of → MayShare contents.old (placed_in entry.old) one.now of }
    requires sizes { IsTrue D.tells → HasSizes contents.old (D.held disk.old) }
    ensures placed { OnOk result
        (PlacesOne D.tells (D.held disk.new) place one.now contents.old contents.new entry.old entry.new) }
    ensures unplaced { IsErr result → entry.new ≡ entry.old }
    ensures same { placeless_entry entry.new ≡ placeless_entry entry.old }
    ensures written { OnOk result (LeavesSizes D.tells D.held D.moment contents.new (fresh_count (one.now ∷ []))
        disk.old disk.new) }
    ensures grows { ChangesBy D.tells D.held D.moment D.images (ClaimsGrowBehind contents.old) disk.old disk.new }
    ensures refusal { RefusesOnFault result (D.faults disk.old) (D.faults disk.new) }
{
    match &one.fresh {
        Fresh::Bytes(bytes) => write_content(contents, disk, entry, place, one, bytes.as_slice()),
        Fresh::As(original) => {
            share_content(contents, entry, place, *original, one);
            Ok(())
        }
        Fresh::No | Fresh::Staged => {
            contents.hold(&one.file.content);
            Ok(())
        }
    }
}

// Writes the new content of the file that an entry records at a place.
fn write_content<D: Disk>(
    contents: &mut Content,
    disk: &mut D,
    entry: &mut PreparedEntry,
    place: u64,
    one: &Placed,
    bytes: &[u8],
) -> Result<(), ContentError>
    requires new { one.now.fresh ≡ Bytes bytes.now }
    requires recorded { IsRecordedAt place one.now (placed_in entry.old) }
    requires may { MayPlaceOne contents.old one.now }
    requires sizes { IsTrue D.tells → HasSizes contents.old (D.held disk.old) }
    ensures placed { OnOk result
        (PlacesOne D.tells (D.held disk.new) place one.now contents.old contents.new entry.old entry.new) }
    ensures unplaced { IsErr result → entry.new ≡ entry.old }
    ensures same { placeless_entry entry.new ≡ placeless_entry entry.old }
    ensures written { OnOk result (LeavesSizes D.tells D.held D.moment contents.new (fresh_count (one.now ∷ []))
        disk.old disk.new) }
    ensures grows { ChangesBy D.tells D.held D.moment D.images (ClaimsGrowBehind contents.old) disk.old disk.new }
    ensures refusal { RefusesOnFault result (D.faults disk.old) (D.faults disk.new) }
{
    let at = contents.append(disk, bytes, one.file.content.digest)?;
    entry.set_content(place, at);
    Ok(())
}

// Gives the file that an entry records at a place the content of an earlier one, which is held once more.
fn share_content(
    contents: &mut Content,
    entry: &mut PreparedEntry,
    place: u64,
    original: u32,
    one: &Placed,
)
    requires shares { one.now.fresh ≡ As original }
    requires recorded { IsRecordedAt place one.now (placed_in entry.old) }
    requires may { MayShare contents.old (placed_in entry.old) one.now original }
    requires few { held_in contents.old < HELD_MAX }
    ensures placed { (tells : Bool) (files : Files)
        → PlacesOne tells files place one.now contents.old contents.new entry.old entry.new }
    ensures same { placeless_entry entry.new ≡ placeless_entry entry.old }
    ensures sizes { (k : ℕ) → size_of contents.new k ≡ size_of contents.old k }
{
    let Some(at) = entry.content_at(u64::from(original)) else {
        unreachable!()
    };
    contents.hold(&at);
    entry.set_content(place, at);
}

/// Gives up the contents of the files of these numbers.
pub(crate) fn give_up(contents: &mut Content, files: &ActiveList, gone: &[u64])
    requires { (k : ℕ) → references_to k (contents_of files.now.items gone.now) ≤ count_of contents.old k }
    ensures counts { (k : ℕ) → count_of contents.new k + references_to k (contents_of files.now.items gone.now)
        ≡ count_of contents.old k }
    ensures held { held_in contents.new + length (contents_of files.now.items gone.now) ≡ held_in contents.old }
    ensures sizes { (k : ℕ) → size_of contents.new k ≡ size_of contents.old k }
{
    for number in gone {
        if let Some(active) = files.get(*number) {
            contents.unhold(&active.file.content);
        }
    }
}

/// Gives up these contents.
pub(crate) fn let_go(contents: &mut Content, refs: &[ContentRef])
    requires { (k : ℕ) → references_to k refs.now ≤ count_of contents.old k }
    ensures counts { (k : ℕ) → count_of contents.new k + references_to k refs.now ≡ count_of contents.old k }
    ensures held { held_in contents.new + length refs.now ≡ held_in contents.old }
    ensures sizes { (k : ℕ) → size_of contents.new k ≡ size_of contents.old k }
{
    for at in refs {
        contents.unhold(at);
    }
}
