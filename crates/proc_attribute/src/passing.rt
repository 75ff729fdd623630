//! How a session with one taken file ends.
ghost use Rattle.std.specs.Prelude.{◌≡◌, ◌<◌, IsTrue, OnOk};
ghost use Rattle.flowfile_record.specs.Attributes.{has_key_length};
ghost use Rattle.flowfile_record.specs.declared.worked.Origin.TheVariants.{Taken as FromQueue};
ghost use Rattle.machine_model.specs.Making.{with_set};
ghost use Rattle.process_session.specs.Bench.{bench_attributes};
ghost use Rattle.processor_api.specs.Sessions.{TookOne, HasOneOpen, EndsWith};
ghost use Rattle.proc_attribute.specs.Passing.{all_to, passed_with};

use crate::{FAILURE, SUCCESS};
use process_session::{Session, SessionError};
use processor_api::FILE;
use std::alloc::AllocError;

/// Passes the file on as it is now.
pub(crate) fn pass(session: &mut Session, relationship: u16)
    requires one { HasOneOpen session.old }
    requires there { relationship < 2 }
    ensures { EndsWith session.old session.new (all_to relationship session.old.files) }
{
    session.transfer(FILE, relationship).unwrap();
}

/// Sets an attribute and passes the file on to success, or where a limit refuses this, as it was to failure.
pub(crate) fn note(session: &mut Session, key: &str, value: &str) -> Result<(), AllocError>
    requires one { TookOne session.old }
    requires key { IsTrue (has_key_length key.now) }
    ensures { let attributes = bench_attributes session.old FILE in
        OnOk result (EndsWith session.old session.new
        (passed_with attributes (with_set (FromQueue FILE) attributes (key.now, value.now)))) }
{
    match session.put_attribute(FILE, key, value) {
        Ok(_) => pass(session, SUCCESS),
        Err(error) => match error {
            SessionError::Memory => return Err(AllocError),
            _ => pass(session, FAILURE),
        },
    }
    Ok(())
}
