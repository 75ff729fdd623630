//! Files of the outbox.
ghost use Rattle.std.specs.Prelude.{◌≡◌, IfOk, IfSome, IsOk, OnOk, is_some, true, false, Ok, None};
ghost use Rattle.machine_model.specs.Acting.{name_in, put_unless_there};
ghost use Rattle.machine_model.specs.Making.{TakenFile};
ghost use Rattle.process_session.specs.Bench.{bench_attributes};
ghost use Rattle.processor_api.specs.Sessions.{EndsWith};
ghost use Rattle.proc_source.specs.Kinds.{is_put_file};
ghost use Rattle.proc_source.specs.Putting.{HasOneTaken, passed_and_put};

use crate::{FAILURE, SUCCESS};
use flowfile_record::{Name, NameError};
use machine_model::{Conflict, Kind};
use process_session::Session;
use processor_api::{Acts, Given, TakeRule};
use std::alloc::{AllocError, Global};

/// The place of the file that it takes.
const FILE: u32 = 0;

/// Sends the file that it took to the outbox, under its `filename`.
#[derive(Clone, Copy)]
pub struct PutFile {
    /// What it does where the outbox has the name.
    pub conflict: Conflict,
}

impl PutFile {
    /// The processor of a kind, or `None` where the kind is another processor's.
    pub fn of(kind: &Kind) -> Option<PutFile>
        ensures of { IfSome result (λ processor. Kind.PutFile processor.conflict ≡ kind.now) }
        ensures other { is_some result ≡ is_put_file kind.now }
    {
        match kind {
            Kind::PutFile { conflict } => Some(PutFile {
                conflict: *conflict,
            }),
            _ => None,
        }
    }

    /// What it does with a file whose name may stand in the outbox.
    fn put(&self, session: &mut Session, name: Name, there: bool)
        requires one { HasOneTaken session.old }
        requires unsent { session.old.sent ≡ None }
        ensures { (file : TakenFile) → file.attributes ≡ bench_attributes session.old FILE
            → EndsWith session.old session.new (put_unless_there self.now.conflict there file name) }
    {
        match (there, self.conflict) {
            (true, Conflict::Fail) => fail(session),
            (true, Conflict::Ignore) => pass(session),
            (true, Conflict::Replace) | (false, _) => send(session, name),
        }
    }
}

impl Acts for PutFile {
    ghost use Rattle.machine_model.specs.declared.kind.Kind.TheVariants.{PutFile as OfPutFile};
    ghost use Rattle.processor_api.specs.Acts.{Begins, EndsAs, KeepsGiven};

    ghost kind = { λ processor. OfPutFile processor.conflict };

    fn takes(&self) -> TakeRule {
        TakeRule::One
    }

    fn act(&self, alloc: Global, session: &mut Session, given: &mut Given) -> Result<(), AllocError>
        requires { Begins (OfPutFile self.now.conflict) session.old given.old }
        ensures acts { OnOk result (EndsAs (OfPutFile self.now.conflict) session.old given.old session.new) }
        ensures given { KeepsGiven given.old given.new }
        // A name alone takes memory.
        ensures free { name_in (bench_attributes session.old FILE) ≡ None → IsOk result }
    {
        match outbox_name(alloc, session)? {
            Some(name) => self.put(session, name, given.there),
            None => fail(session),
        }
        Ok(())
    }
}

/// The file's `filename`, where it may name a file.
fn outbox_name(alloc: Global, session: &Session) -> Result<Option<Name>, AllocError>
    ensures name { IfOk result (λ name. name ≡ name_in (bench_attributes session.now FILE)) }
    ensures free { name_in (bench_attributes session.now FILE) ≡ None → result ≡ Ok None }
{
    let Some(attributes) = session.attributes(FILE) else {
        return Ok(None);
    };
    let Some(text) = attributes.get("filename") else {
        return Ok(None);
    };
    match Name::read(alloc, text) {
        Ok(name) => Ok(Some(name)),
        Err(NameError::BadName) => Ok(None),
        Err(NameError::Memory) => Err(AllocError),
    }
}

fn send(session: &mut Session, name: Name)
    requires one { HasOneTaken session.old }
    requires unsent { session.old.sent ≡ None }
    ensures { EndsWith session.old session.new (passed_and_put (Some (record { place = FILE; name = name }))
        (bench_attributes session.old FILE) false SUCCESS) }
{
    session.send(FILE, name).unwrap();
    pass(session);
}

fn pass(session: &mut Session)
    requires { HasOneTaken session.old }
    ensures { EndsWith session.old session.new
        (passed_and_put session.old.sent (bench_attributes session.old FILE) false SUCCESS) }
{
    session.transfer(FILE, SUCCESS).unwrap();
}

fn fail(session: &mut Session)
    requires { HasOneTaken session.old }
    ensures { EndsWith session.old session.new
        (passed_and_put session.old.sent (bench_attributes session.old FILE) true FAILURE) }
{
    session.penalize(FILE).unwrap();
    session.transfer(FILE, FAILURE).unwrap();
}
