//! Contents in groups of lines.
ghost use Rattle.std.specs.Prelude.{◌≡◌, IfSome, is_some};
ghost use Rattle.proc_text.specs.Kinds.{is_split_text};

use crate::parting::{Ways, part};
use crate::pieces::Cut;
use machine_model::Kind;
use process_session::Session;
use processor_api::{Acts, Given, TakeRule};
use std::alloc::{AllocError, Global};

/// The places of its relationships `original` and `splits`.
const WAYS: Ways = Ways {
    original: 0,
    parts: 1,
};

/// Makes a file of each group of lines of a content. A line ends behind a line feed, or at the content's end.
#[derive(Clone, Copy)]
pub struct SplitText {
    /// How many lines a group has. The last one may have fewer.
    pub lines: u32,
}

impl SplitText {
    /// The processor of a kind, or `None` where the kind is another processor's.
    pub fn of(kind: &Kind) -> Option<SplitText>
        ensures of { IfSome result (λ processor. Kind.SplitText processor.lines ≡ kind.now) }
        ensures other { is_some result ≡ is_split_text kind.now }
    {
        match kind {
            Kind::SplitText { lines } => Some(SplitText { lines: *lines }),
            _ => None,
        }
    }
}

impl Acts for SplitText {
    ghost use Rattle.machine_model.specs.declared.kind.Kind.TheVariants.{SplitText as OfSplitText};

    ghost kind = { λ processor. OfSplitText processor.lines };

    fn takes(&self) -> TakeRule {
        TakeRule::One
    }

    fn act(
        &self,
        alloc: Global,
        session: &mut Session,
        _given: &mut Given,
    ) -> Result<(), AllocError> {
        part(alloc, session, WAYS, Cut::Lines(u64::from(self.lines)))
    }
}
