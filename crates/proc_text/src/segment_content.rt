//! Contents in segments.
ghost use Rattle.std.specs.Prelude.{◌≡◌, IfSome, is_some};
ghost use Rattle.proc_text.specs.Kinds.{is_segment_content};

use crate::parting::{Ways, part};
use crate::pieces::Cut;
use machine_model::Kind;
use process_session::Session;
use processor_api::{Acts, Given, TakeRule};
use std::alloc::{AllocError, Global};

/// The places of its relationships `segments` and `original`.
const WAYS: Ways = Ways {
    parts: 0,
    original: 1,
};

/// Makes a file of each segment of a content.
#[derive(Clone, Copy)]
pub struct SegmentContent {
    /// How many bytes a segment has. The last one may have fewer.
    pub size: u64,
}

impl SegmentContent {
    /// The processor of a kind, or `None` where the kind is another processor's.
    pub fn of(kind: &Kind) -> Option<SegmentContent>
        ensures of { IfSome result (λ processor. Kind.SegmentContent processor.size ≡ kind.now) }
        ensures other { is_some result ≡ is_segment_content kind.now }
    {
        match kind {
            Kind::SegmentContent { size } => Some(SegmentContent { size: *size }),
            _ => None,
        }
    }
}

impl Acts for SegmentContent {
    ghost use Rattle.machine_model.specs.declared.kind.Kind.TheVariants.{SegmentContent as OfSegmentContent};

    ghost kind = { λ processor. OfSegmentContent processor.size };

    fn takes(&self) -> TakeRule {
        TakeRule::One
    }

    fn act(
        &self,
        alloc: Global,
        session: &mut Session,
        _given: &mut Given,
    ) -> Result<(), AllocError> {
        part(alloc, session, WAYS, Cut::Bytes(self.size))
    }
}
