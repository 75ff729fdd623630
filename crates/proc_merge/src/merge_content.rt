//! Files that are joined.
ghost use Rattle.std.specs.Prelude.{◌≡◌, IfSome, is_some};
ghost use Rattle.proc_merge.specs.Kinds.{is_merge_content};

use crate::fragments::may_join;
use crate::joining::join;
use crate::passing::pass_all;
use crate::{FAILURE, ORIGINAL};
use machine_model::{Kind, MergeStrategy};
use process_session::Session;
use processor_api::{Acts, Given, TakeRule};
use std::alloc::{AllocError, Global};

/// Joins the files that a session took to one.
#[derive(Clone, Copy)]
pub struct MergeContent {
    pub strategy: MergeStrategy,
    /// How many files it takes at least and at most where it packs bins.
    pub minimum: u32,
    pub maximum: u32,
}

impl MergeContent {
    /// The processor of a kind, or `None` where the kind is another processor's.
    pub fn of(kind: &Kind) -> Option<MergeContent>
        ensures of { IfSome result (λ processor.
            Kind.MergeContent processor.strategy processor.minimum processor.maximum ≡ kind.now) }
        ensures other { is_some result ≡ is_merge_content kind.now }
    {
        match kind {
            Kind::MergeContent {
                strategy,
                minimum,
                maximum,
            } => Some(MergeContent {
                strategy: *strategy,
                minimum: *minimum,
                maximum: *maximum,
            }),
            _ => None,
        }
    }
}

impl Acts for MergeContent {
    ghost use Rattle.machine_model.specs.declared.kind.Kind.TheVariants.{MergeContent as OfMergeContent};

    ghost kind = { λ processor. OfMergeContent processor.strategy processor.minimum processor.maximum };

    fn takes(&self) -> TakeRule {
        match self.strategy {
            MergeStrategy::BinPacking => TakeRule::Bin {
                min: self.minimum,
                max: self.maximum,
            },
            MergeStrategy::Defragment => TakeRule::Defragment,
        }
    }

    fn act(
        &self,
        alloc: Global,
        session: &mut Session,
        _given: &mut Given,
    ) -> Result<(), AllocError> {
        if may_join(self.strategy, session) && join(alloc, self.strategy, session)? {
            pass_all(session, ORIGINAL);
        } else {
            pass_all(session, FAILURE);
        }
        Ok(())
    }
}
