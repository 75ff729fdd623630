//! A content is written at the end of a claim.
ghost use Rattle.std.specs.Prelude.{◌≡◌, length, IsTrue, IfOk, OnErr};
ghost use Rattle.disk_trait.specs.Images.{After, Since, next_moment};
ghost use Rattle.content_repo.specs.Append.{MayAppend, IsAppended, IsWritten, TornAtEnd, KeepsContents};
ghost use Rattle.content_repo.specs.Claims.{claim, HasSizes};
ghost use Rattle.content_repo.specs.Errors.{RefusesOnFault};

use crate::{Content, ContentError};
use disk_trait::{Disk, FileKind, FileName};
use flowfile_record::{ContentRef, DIGEST_SIZE};

impl Content {
    /// Writes a content at the end of the live claim of lowest number that is shorter than `OPEN_SIZE`, or where none
    /// is into the lowest free slot, and holds one reference to it. It takes no memory.
    pub fn append<D: Disk>(
        &mut self,
        disk: &mut D,
        bytes: &[u8],
        digest: [u8; DIGEST_SIZE],
    ) -> Result<ContentRef, ContentError>
        requires content { MayAppend self.old bytes.now digest }
        requires sizes { IsTrue D.tells → HasSizes self.old (D.held disk.old) }
        // Where it stands.
        ensures appended { IfOk result (IsAppended bytes.now digest self.old self.new) }
        ensures written { IfOk result (λ at. IsTrue D.tells
            → IsWritten bytes.now at self.new (D.held disk.old) (D.held disk.new)) }
        ensures untouched { OnErr result (self.new ≡ self.old) }
        // What was there is there, wherever a stop comes.
        ensures kept { IsTrue D.tells
            → KeepsContents self.old (length bytes.now) (D.held disk.old) (D.held disk.new) }
        ensures images { Since D.moment D.images disk.old disk.new
            (After (TornAtEnd self.old (length bytes.now)) (D.images disk.old (D.moment disk.old))) }
        // There is one write.
        ensures moment { D.moment disk.new ≡ next_moment (D.moment disk.old) }
        ensures refusal { RefusesOnFault result (D.faults disk.old) (D.faults disk.new) }
    {
        let Some(slot) = self.next() else {
            unreachable!()
        };
        let offset = self.slot(slot).size;
        let size = bytes.len() as u64;
        disk.write(claim_file(slot), offset, bytes)?;
        self.take(slot, offset + size);
        Ok(ContentRef {
            slot,
            offset,
            size,
            digest,
        })
    }
}

/// The file of a slot's claim.
pub(crate) fn claim_file(slot: u32) -> FileName
    ensures { result ≡ claim slot }
{
    FileName {
        kind: FileKind::Claim,
        number: u64::from(slot),
    }
}
