//! A repository is made from the references that are live, and its claims cut to what these cover.
ghost use Rattle.std.specs.Prelude.{◌≡◌, ℕ, ◌≤◌, All, length, take, IsTrue, IfOk, OnOk, IfErr, IsErr, IsErrOf};
ghost use Rattle.disk_trait.specs.Files.{At, Shortened};
ghost use Rattle.disk_trait.specs.Images.{After, Since};
ghost use Rattle.disk_trait.specs.Faults.{CountsFaults};
ghost use Rattle.content_repo.specs.Claims.{claim, IsCovered, ShortenedTo, CutTo, AreCut};
ghost use Rattle.content_repo.specs.Errors.{IsNeitherFullNorDamaged};
ghost use Rattle.content_repo.specs.Slots.{size_of, held_in, covered, AreLive, IsLoaded, slot_numbered, unused};

use crate::{Content, ContentError};
use disk_trait::{Disk, Failed, FileKind, FileName};
use flowfile_record::ContentRef;
use std::alloc::Global;

/// The greatest number of references that a repository is loaded with.
pub const LIVE_MAX: u64 = 1_048_576;

impl Content {
    /// A repository of the contents that these references name, each held once. Each claim is cut to the greatest end
    /// of the references to it, or to nothing.
    pub fn load<D: Disk>(
        alloc: Global,
        disk: &mut D,
        live: &[ContentRef],
    ) -> Result<Content, ContentError>
        requires live { AreLive live.now }
        requires within { IsTrue D.tells → All (IsCovered (D.held disk.old)) live.now }
        ensures loaded { IfOk result (IsLoaded live.now) }
        ensures held { IfOk result (λ content. held_in content ≡ length live.now) }
        ensures cut { IfOk result (λ content. IsTrue D.tells
            → AreCut live.now content (D.held disk.old) (D.held disk.new)) }
        // A stop leaves what it would have left, but for bytes that no reference covers.
        ensures images { Since D.moment D.images disk.old disk.new
            (After (ShortenedTo (λ k. covered k live.now)) (D.images disk.old (D.moment disk.old))) }
        ensures refusal { IfErr result IsNeitherFullNorDamaged }
        ensures cause { CountsFaults (D.faults disk.old) (D.faults disk.new) (IsErrOf result ContentError.Disk) }
    {
        let mut content = Content::new(alloc)?;
        content.hold_all(live);
        content.cut_claims(alloc, disk)?;
        Ok(content)
    }

    // Holds each reference once, in a repository of no contents.
    fn hold_all(&mut self, live: &[ContentRef])
        requires live { AreLive live.now }
        requires none { (k : ℕ) → slot_numbered self.old k ≡ unused }
        requires unheld { held_in self.old ≡ 0 }
        ensures loaded { IsLoaded live.now self.new }
        ensures held { held_in self.new ≡ length live.now }
    {
        for at in live {
            let end = at.offset + at.size;
            let size = self.slot(at.slot).size.max(end);
            self.take(at.slot, size);
        }
    }

    // Cuts each claim to the size that is known.
    fn cut_claims<D: Disk>(&self, alloc: Global, disk: &mut D) -> Result<(), ContentError>
        requires { IsTrue D.tells → (k : ℕ) → size_of self.now k ≤ length (D.held disk.old (claim k)) }
        ensures cut { OnOk result (IsTrue D.tells → CutTo (size_of self.now) (D.held disk.old) (D.held disk.new)) }
        ensures images { Since D.moment D.images disk.old disk.new
            (After (ShortenedTo (size_of self.now)) (D.images disk.old (D.moment disk.old))) }
        ensures refusal { IfErr result IsNeitherFullNorDamaged }
        ensures cause { CountsFaults (D.faults disk.old) (D.faults disk.new) (IsErrOf result ContentError.Disk) }
    {
        let mut numbers = Vec::new(alloc);
        disk.files(FileKind::Claim, &mut numbers)?;
        for number in &numbers {
            cut_claim(disk, *number, self.size_at(*number))?;
        }
        Ok(())
    }
}

// Cuts a claim to its end, unless it is no longer.
fn cut_claim<D: Disk>(disk: &mut D, number: u64, end: u64) -> Result<(), Failed>
    requires { IsTrue D.tells → end ≤ length (D.held disk.old (claim number)) }
    ensures cut { OnOk result (IsTrue D.tells
        → At (claim number) (λ old new. new ≡ take end old) (D.held disk.old) (D.held disk.new)) }
    ensures images { Since D.moment D.images disk.old disk.new
        (After (At (claim number) (Shortened end)) (D.images disk.old (D.moment disk.old))) }
    ensures cause { CountsFaults (D.faults disk.old) (D.faults disk.new) (IsErr result) }
{
    let file = FileName {
        kind: FileKind::Claim,
        number,
    };
    let size = disk.size(file)?;
    if end < size {
        disk.cut(file, end)?;
    }
    Ok(())
}
