//! The trait of all processors, with the one law that each of them is proved to keep.
use machine_model::{Given, TakeRule};
use process_session::Session;
use std::alloc::{AllocError, Global};

/// A processor of one kind, with its properties.
///
/// A session takes nothing back. So a processor that may give up tries first and writes last, and where memory runs
/// out its session is of no more use than to be given up.
pub trait Acts {
    ghost use Rattle.std.specs.Prelude.{◌≡◌, OnOk};
    ghost use Rattle.machine_model.specs.Kinds.{take_rule_of};
    ghost use Rattle.machine_model.specs.declared.kind.Kind.{Kind};
    ghost use Rattle.processor_api.specs.Acts.{Begins, EndsAs, KeepsGiven};

    /// The kind that it is of, with its properties.
    ghost kind: { Self → Kind };

    /// Which files a session of it takes.
    fn takes(&self) -> TakeRule
        ensures { result ≡ take_rule_of (kind self.now) };

    /// Acts on the files that a session took, and ends all of them. Want of memory alone keeps it from that. The bytes
    /// that it is given it may take out, so that no content stands in memory twice.
    fn act(&self, alloc: Global, session: &mut Session, given: &mut Given) -> Result<(), AllocError>
        requires { Begins (kind self.now) session.old given.old }
        ensures acts { OnOk result (EndsAs (kind self.now) session.old given.old session.new) }
        ensures given { KeepsGiven given.old given.new };
}
