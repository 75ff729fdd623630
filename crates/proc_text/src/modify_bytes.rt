//! A content without its ends.
ghost use Rattle.std.specs.Prelude.{◌≡◌, IfSome, is_some};
ghost use Rattle.machine_model.specs.ModifyBytes.{without_ends};
ghost use Rattle.proc_text.specs.Kinds.{is_modify_bytes};

use crate::passing::replace;
use flowfile_record::Bytes;
use machine_model::Kind;
use process_session::Session;
use processor_api::{Acts, FILE, Given, TakeRule};
use std::alloc::{AllocError, Global};

/// Drops so many bytes at a content's start and at its end.
#[derive(Clone, Copy)]
pub struct ModifyBytes {
    pub start: u64,
    pub end: u64,
}

impl ModifyBytes {
    /// The processor of a kind, or `None` where the kind is another processor's.
    pub fn of(kind: &Kind) -> Option<ModifyBytes>
        ensures of { IfSome result (λ processor. Kind.ModifyBytes processor.start processor.end ≡ kind.now) }
        ensures other { is_some result ≡ is_modify_bytes kind.now }
    {
        match kind {
            Kind::ModifyBytes { start, end } => Some(ModifyBytes {
                start: *start,
                end: *end,
            }),
            _ => None,
        }
    }
}

impl Acts for ModifyBytes {
    ghost use Rattle.machine_model.specs.declared.kind.Kind.TheVariants.{ModifyBytes as OfModifyBytes};

    ghost kind = { λ processor. OfModifyBytes processor.start processor.end };

    fn takes(&self) -> TakeRule {
        TakeRule::One
    }

    fn act(
        &self,
        alloc: Global,
        session: &mut Session,
        _given: &mut Given,
    ) -> Result<(), AllocError> {
        let Ok(content) = session.content(FILE) else {
            unreachable!()
        };
        let kept = without_ends(content, self.start, self.end);
        let bytes = Bytes::from_slice(alloc, kept)?;
        replace(session, bytes.into_vec());
        Ok(())
    }
}

/// What stands between the first and the last bytes, so many of each.
fn without_ends(bytes: &[u8], start: u64, end: u64) -> &[u8]
    ensures { result.now ≡ without_ends start end bytes.now }
{
    let (_, rest) = bytes.split_at(bytes.len().min(start as usize));
    let (kept, _) = rest.split_at(rest.len().saturating_sub(end as usize));
    kept
}
