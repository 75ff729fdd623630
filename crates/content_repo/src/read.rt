//! A content is read, and its digest compared.
ghost use Rattle.std.specs.Prelude.{◌≡◌, ◌≢◌, ◌+◌, ◌^◌, ◌<◌, ◌≤◌, length, IsTrue, IfOk, OnOk, IfErr, IsErrOf};
ghost use Rattle.disk_trait.specs.Images.{Stays};
ghost use Rattle.disk_trait.specs.Faults.{CountsFaults};
ghost use Rattle.disk_trait.specs.declared.damage.Damage.{Damage as TheDamage};
ghost use Rattle.content_repo.specs.Claims.{claim, content_in, IsCovered, IsRead, IsReadRefusal};
ghost use Rattle.content_repo.specs.Slots.{count_of, size_of, end_of};

use crate::append::claim_file;
use crate::{Content, ContentError};
use block_file::digest_at;
use disk_trait::{Damage, Disk};
use flowfile_record::{ContentRef, DIGEST_SIZE};
use sha2::{Digest, Sha256};
use std::alloc::Global;

impl Content {
    /// The bytes of a content, to whose slot a reference is held.
    pub fn read<D: Disk>(
        &mut self,
        alloc: Global,
        disk: &mut D,
        at: &ContentRef,
    ) -> Result<Vec<u8>, ContentError>
        requires held { 0 < count_of self.old at.now.slot }
        requires within { end_of at.now ≤ size_of self.old at.now.slot }
        ensures read { IfOk result (λ bytes. IsRead D.tells (D.held disk.old) at.now bytes.items) }
        ensures refusal { IfErr result (IsReadRefusal D.tells (D.held disk.old) at.now) }
        ensures value { self.new ≡ self.old }
        ensures stays { Stays D.held D.moment D.images disk.old disk.new }
        ensures cause { CountsFaults (D.faults disk.old) (D.faults disk.new) (IsErrOf result ContentError.Disk) }
    {
        let _slot = self.held_slot(at.slot);
        read_content(alloc, disk, at)
    }
}

/// The bytes of a content, whether or not a reference to it is held.
pub fn read_content<D: Disk>(
    alloc: Global,
    disk: &mut D,
    at: &ContentRef,
) -> Result<Vec<u8>, ContentError>
    requires { end_of at.now < 2 ^ 64 }
    ensures read { IfOk result (λ bytes. IsRead D.tells (D.held disk.old) at.now bytes.items) }
    ensures refusal { IfErr result (IsReadRefusal D.tells (D.held disk.old) at.now) }
    ensures stays { Stays D.held D.moment D.images disk.old disk.new }
    ensures cause { CountsFaults (D.faults disk.old) (D.faults disk.new) (IsErrOf result ContentError.Disk) }
{
    let file = claim_file(at.slot);
    let have = disk.size(file)?;
    let need = at.offset + at.size;
    if have < need {
        return Err(ContentError::Damaged(Damage::Short {
            file,
            at: at.offset,
            need,
            have,
        }));
    }
    let bytes = read_bytes(alloc, disk, at)?;
    compare_digest(at, Sha256::digest(bytes.as_slice()))?;
    Ok(bytes)
}

// The bytes of a content that lies in its claim. Where there is no memory for them, its digest is compared all the
// same: damage is told as damage.
fn read_bytes<D: Disk>(
    alloc: Global,
    disk: &mut D,
    at: &ContentRef,
) -> Result<Vec<u8>, ContentError>
    requires end { end_of at.now < 2 ^ 64 }
    requires covered { IsTrue D.tells → IsCovered (D.held disk.old) at.now }
    ensures bytes { IfOk result (λ bytes. IsTrue D.tells → bytes.items ≡ content_in (D.held disk.old) at.now) }
    ensures len { IfOk result (λ bytes. length bytes.items ≡ at.now.size) }
    ensures refusal { IfErr result (IsReadRefusal D.tells (D.held disk.old) at.now) }
    ensures stays { Stays D.held D.moment D.images disk.old disk.new }
    ensures cause { CountsFaults (D.faults disk.old) (D.faults disk.new) (IsErrOf result ContentError.Disk) }
{
    let file = claim_file(at.slot);
    let mut bytes = Vec::new(alloc);
    if bytes.resize(at.size as usize, 0).is_err() {
        let found = digest_at(disk, file, at.offset, at.size)?;
        compare_digest(at, found)?;
        return Err(ContentError::Memory);
    }
    disk.read(file, at.offset, bytes.as_mut_slice())?;
    Ok(bytes)
}

// A content whose bytes have another digest is damaged.
fn compare_digest(at: &ContentRef, found: [u8; DIGEST_SIZE]) -> Result<(), Damage>
    ensures same { OnOk result (found ≡ at.now.digest) }
    ensures other { IfErr result (λ damage. (found ≢ at.now.digest) × (damage
        ≡ TheDamage.Digest (claim at.now.slot) at.now.offset at.now.digest found)) }
{
    if found != at.digest {
        return Err(Damage::Digest {
            file: claim_file(at.slot),
            at: at.offset,
            stored: at.digest,
            found,
        });
    }
    Ok(())
}
