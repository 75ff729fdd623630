//! The claims that nothing refers to are emptied.
ghost use Rattle.std.specs.Prelude.{◌≡◌, ◌<◌, slice_set, IsTrue, IfOk, OnOk, OnErr, IsErr};
ghost use Rattle.disk_trait.specs.Images.{After, Since};
ghost use Rattle.disk_trait.specs.Faults.{CountsFaults};
ghost use Rattle.content_repo.specs.Claims.{HasSizes, AreEmptied, AreReclaimedInPart, IdleShortened, EmptiedAt, ShortenedAt};
ghost use Rattle.content_repo.specs.Errors.{RefusesOnFault};
ghost use Rattle.content_repo.specs.SlotSet.{bit_of};
ghost use Rattle.content_repo.specs.Slots.{held_in, slot_numbered, is_idle, reclaimed, IsReclaimed};

use crate::append::claim_file;
use crate::{Content, ContentError, SLOTS};
use disk_trait::{Disk, Failed};

/// What became of the claims that nothing referred to.
#[derive(Clone, Copy, Debug, PartialEq, Eq)]
pub struct Reclaimed {
    /// How many were emptied.
    pub emptied: u32,
    /// How many were claimed by someone else, and left.
    pub claimed: u32,
}

impl Content {
    /// Empties each claim without references and makes its slot free. It takes no memory.
    pub fn reclaim<D: Disk>(&mut self, disk: &mut D) -> Result<Reclaimed, ContentError>
        requires { IsTrue D.tells → HasSizes self.old (D.held disk.old) }
        ensures reclaimed { IfOk result (IsReclaimed self.old self.new) }
        ensures emptied { OnOk result (IsTrue D.tells
            → AreEmptied self.old self.new (D.held disk.old) (D.held disk.new)) }
        // Whatever the answer, a slot is freed only once its claim is empty.
        ensures partly { AreReclaimedInPart D.tells self.old self.new (D.held disk.new) }
        // Whatever a stop leaves, only claims that nothing refers to are changed.
        ensures shortened { IsTrue D.tells → IdleShortened self.old (D.held disk.old) (D.held disk.new) }
        ensures images { Since D.moment D.images disk.old disk.new
            (After (IdleShortened self.old) (D.images disk.old (D.moment disk.old))) }
        ensures refusal { RefusesOnFault result (D.faults disk.old) (D.faults disk.new) }
    {
        let mut emptied = 0;
        for number in 0..self.len() {
            emptied += self.reclaim_at(disk, number)?;
        }
        Ok(Reclaimed {
            emptied,
            claimed: 0,
        })
    }

    // Empties a claim and makes its slot free, where nothing refers to it. How many were emptied.
    fn reclaim_at<D: Disk>(&mut self, disk: &mut D, number: u32) -> Result<u32, Failed>
        requires { number < SLOTS }
        ensures emptied { IfOk result (λ emptied. emptied ≡ bit_of (is_idle (slot_numbered self.old number))) }
        ensures value { OnOk result (self.new ≡ slice_set self.old number (reclaimed (slot_numbered self.old number))) }
        ensures untouched { OnErr result (self.new ≡ self.old) }
        ensures count { OnOk result (held_in self.new ≡ held_in self.old) }
        ensures held { OnOk result (IsTrue D.tells
            → EmptiedAt (slot_numbered self.old number) number (D.held disk.old) (D.held disk.new)) }
        ensures shortened { IsTrue D.tells
            → ShortenedAt (slot_numbered self.old number) number (D.held disk.old) (D.held disk.new) }
        ensures images { Since D.moment D.images disk.old disk.new
            (After (ShortenedAt (slot_numbered self.old number) number) (D.images disk.old (D.moment disk.old))) }
        ensures cause { CountsFaults (D.faults disk.old) (D.faults disk.new) (IsErr result) }
    {
        if !self.slot(number).is_idle() {
            return Ok(0);
        }
        disk.cut(claim_file(number), 0)?;
        self.retire(number);
        Ok(1)
    }
}
