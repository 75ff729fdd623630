//! How a session with one taken file ends.
ghost use Rattle.std.specs.Prelude.{◌≡◌, ◌<◌, ◌≤◌, length};
ghost use Rattle.flowfile_record.specs.declared.TheConstants.{CONTENT_MAX};
ghost use Rattle.machine_model.specs.AttributesToJson.{written_on};
ghost use Rattle.machine_model.specs.Making.{alone};
ghost use Rattle.process_session.specs.Bench.{bench_attributes};
ghost use Rattle.processor_api.specs.Sessions.{BeganWithOne, EndsWith};

use crate::SUCCESS;
use flowfile_record::{ATTRIBUTES_MAX, Attributes};
use process_session::Session;
use processor_api::FILE;

/// The attributes of the taken file.
pub(crate) fn attributes_of(session: &Session) -> &Attributes
    requires { BeganWithOne session.now }
    ensures { result.now ≡ bench_attributes session.now FILE }
{
    let Some(attributes) = session.attributes(FILE) else {
        unreachable!()
    };
    attributes
}

/// Replaces the content by one that isn't too long, and passes the file on to success.
pub(crate) fn replace(session: &mut Session, bytes: Vec<u8>)
    requires one { BeganWithOne session.old }
    requires there { SUCCESS < session.old.relationships }
    requires fits { length bytes.items ≤ CONTENT_MAX }
    ensures { EndsWith session.old session.new (alone (written_on (bench_attributes session.old FILE) bytes.items)) }
{
    let size = attributes_of(session).size();
    prove!(size <= ATTRIBUTES_MAX);
    session.write(FILE, bytes).unwrap();
    session.transfer(FILE, SUCCESS).unwrap();
}
