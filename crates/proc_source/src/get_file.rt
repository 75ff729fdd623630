//! Files of the inbox.
ghost use Rattle.std.specs.Prelude.{◌≡◌, IfSome, is_some};
ghost use Rattle.proc_source.specs.Kinds.{is_get_file};

use crate::SUCCESS;
use machine_model::{Kind, Pattern};
use process_session::Session;
use processor_api::{Acts, Given, TakeRule, or_no_memory};
use std::alloc::{AllocError, Global};

/// Receives the file of the inbox that it is given: its bytes, its name as `filename`, and `./` as `path`.
#[derive(Clone, Copy)]
pub struct GetFile<'k> {
    /// Which files of the inbox it is given, by their names.
    pub filter: &'k Option<Pattern>,
}

impl<'k> GetFile<'k> {
    /// The processor of a kind, or `None` where the kind is another processor's.
    pub fn of(kind: &'k Kind) -> Option<GetFile<'k>>
        ensures of { IfSome result (λ processor. Kind.GetFile processor.filter.now ≡ kind.now) }
        ensures other { is_some result ≡ is_get_file kind.now }
    {
        match kind {
            Kind::GetFile { filter } => Some(GetFile { filter }),
            _ => None,
        }
    }
}

impl Acts for GetFile<'_> {
    ghost use Rattle.machine_model.specs.declared.kind.Kind.TheVariants.{GetFile as OfGetFile};

    ghost kind = { λ processor. OfGetFile processor.filter.now };

    fn takes(&self) -> TakeRule {
        TakeRule::Source
    }

    fn act(
        &self,
        _alloc: Global,
        session: &mut Session,
        given: &mut Given,
    ) -> Result<(), AllocError> {
        let (Some(name), Some(bytes)) = (&given.file, given.bytes.take()) else {
            unreachable!()
        };
        let file = or_no_memory(session.receive(bytes.into_vec()))?;
        or_no_memory(session.put_attribute(file, "filename", name.text()))?;
        or_no_memory(session.put_attribute(file, "path", "./"))?;
        session.transfer(file, SUCCESS).unwrap();
        Ok(())
    }
}
