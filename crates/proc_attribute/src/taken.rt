//! What is known of the file that a session took.
ghost use Rattle.std.specs.Prelude.{◌≡◌, slice_get, Some};
ghost use Rattle.std.specs.Option.{option_map};
ghost use Rattle.process_session.specs.Bench.{bench_attributes};
ghost use Rattle.processor_api.specs.Sessions.{TookOne};

use expr_lang::Subject;
use flowfile_record::Attributes;
use process_session::Session;
use processor_api::FILE;

/// The attributes of a taken file and its uuid, which expressions find under the name `uuid`.
#[derive(Clone, Copy)]
pub(crate) struct Taken<'s> {
    pub(crate) attributes: &'s Attributes,
    pub(crate) uuid: &'s str,
}

impl Subject for Taken<'_> {
    ghost use Rattle.std.specs.Prelude.{[]};
    ghost use Rattle.machine_model.specs.Making.{found_in};

    ghost attributes = { λ taken.
        found_in (record { attributes = taken.attributes.now; uuid = taken.uuid.now; bytes = [] }) };

    fn find(&self, name: &str) -> Option<&str> {
        if name == "uuid" {
            return Some(self.uuid);
        }
        self.attributes.get(name)
    }
}

/// The file of a session that took one.
pub(crate) fn file_of(session: &Session) -> Taken<'_>
    requires { TookOne session.now }
    ensures attributes { result.attributes.now ≡ bench_attributes session.now FILE }
    ensures uuid { option_map (λ source. source.uuid) (slice_get session.now.sources FILE) ≡ Some result.uuid.now }
{
    let (Some(attributes), Some(uuid)) = (session.attributes(FILE), session.uuid(FILE)) else {
        unreachable!()
    };
    Taken { attributes, uuid }
}
