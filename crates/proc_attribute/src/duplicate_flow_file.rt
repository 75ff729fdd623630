//! Copies of files.
ghost use Rattle.std.specs.Prelude.{◌≡◌, ◌<◌, ◌≤◌, replicate, true, IfSome, OnOk, is_some};
ghost use Rattle.machine_model.specs.declared.limits.TheConstants.{COPIES_MAX};
ghost use Rattle.machine_model.specs.Making.{clone_of};
ghost use Rattle.process_session.specs.Bench.{bench_attributes};
ghost use Rattle.processor_api.specs.Sessions.{BeganWithOne};
ghost use Rattle.processor_api.specs.Cloning.{may_be_cloned, with_ended};
ghost use Rattle.proc_attribute.specs.Kinds.{is_duplicate_flow_file};

use crate::SUCCESS;
use machine_model::Kind;
use process_session::Session;
use processor_api::{Acts, FILE, Given, TakeRule, add_clone, may_be_cloned};
use std::alloc::{AllocError, Global};

/// Makes clones of the file that it took, to success like the file itself. A file that may not be cloned goes there
/// alone.
#[derive(Clone, Copy)]
pub struct DuplicateFlowFile {
    /// How many clones it makes.
    pub copies: u16,
}

impl DuplicateFlowFile {
    /// The processor of a kind, or `None` where the kind is another processor's.
    pub fn of(kind: &Kind) -> Option<DuplicateFlowFile>
        ensures of { IfSome result (λ processor. Kind.DuplicateFlowFile processor.copies ≡ kind.now) }
        ensures other { is_some result ≡ is_duplicate_flow_file kind.now }
    {
        match kind {
            Kind::DuplicateFlowFile { copies } => Some(DuplicateFlowFile { copies: *copies }),
            _ => None,
        }
    }
}

impl Acts for DuplicateFlowFile {
    ghost use Rattle.machine_model.specs.declared.kind.Kind.TheVariants.{DuplicateFlowFile as OfDuplicateFlowFile};

    ghost kind = { λ processor. OfDuplicateFlowFile processor.copies };

    fn takes(&self) -> TakeRule {
        TakeRule::One
    }

    fn act(
        &self,
        _alloc: Global,
        session: &mut Session,
        _given: &mut Given,
    ) -> Result<(), AllocError> {
        // A session takes nothing back: whether it lets the file be cloned is known before the first clone.
        let copies = if may_be_cloned(session) {
            self.copies
        } else {
            0
        };
        add_clones(session, copies)?;
        session.transfer(FILE, SUCCESS).unwrap();
        Ok(())
    }
}

/// So many clones, each to success.
fn add_clones(session: &mut Session, copies: u16) -> Result<(), AllocError>
    requires one { BeganWithOne session.old }
    requires success { SUCCESS < session.old.relationships }
    requires few { copies ≤ COPIES_MAX }
    requires may { 0 < copies → may_be_cloned session.old ≡ true }
    ensures { OnOk result (session.new ≡ with_ended session.old
        (replicate copies (clone_of FILE (bench_attributes session.old FILE) SUCCESS))) }
{
    for _ in 0..copies {
        add_clone(session, SUCCESS)?;
    }
    Ok(())
}
