//! How files end, and what is noted of them.
ghost use Rattle.std.specs.Prelude.{◌≡◌, ◌<◌, length, is_ok, true, None, Some, OnOk, if◌then◌else◌};
ghost use Rattle.std.specs.Result.{result_err};
ghost use Rattle.process_session.specs.Changes.{change_at, with_end, with_penalty, with_route, with_sent};
ghost use Rattle.process_session.specs.Refusals.{refusal_of_penalize, refusal_of_remove, refusal_of_route, refusal_of_send, refusal_of_transfer, refusal_of_transfer_back};

use super::Session;
use crate::SessionError;
use crate::file::File;
use flowfile_record::{End, Name, Sent};

impl Session {
    /// Notes that a file is routed to a relationship.
    #[tactic(auto, using(crate::proofs::Refusing::steps))]
    pub fn route(&mut self, place: u32, relationship: u16) -> Result<(), SessionError>
        ensures refusal { result_err result ≡ refusal_of_route self.old place relationship }
        ensures after { self.new ≡ (if is_ok result then with_route self.old place relationship else self.old) }
    {
        self.check_known(place)?;
        self.check_open(place)?;
        self.check_relationship(relationship)?;
        route_file(&mut self.files, place, relationship);
        Ok(())
    }

    /// Notes that the content of a file is put into the outbox under a name.
    #[tactic(auto, using(crate::proofs::Refusing::steps))]
    pub fn send(&mut self, place: u32, name: Name) -> Result<(), SessionError>
        ensures refusal { result_err result ≡ refusal_of_send self.old place }
        ensures after { self.new ≡ (if is_ok result then with_sent self.old place name else self.old) }
    {
        self.check_known(place)?;
        self.check_open(place)?;
        self.check_unsent()?;
        self.sent = Some(Sent { place, name });
        Ok(())
    }

    /// Notes that a file is penalised.
    #[tactic(auto, using(crate::proofs::Refusing::steps))]
    pub fn penalize(&mut self, place: u32) -> Result<(), SessionError>
        ensures refusal { result_err result ≡ refusal_of_penalize self.old place }
        ensures after { self.new ≡ (if is_ok result then with_penalty self.old place else self.old) }
    {
        self.check_known(place)?;
        self.check_open(place)?;
        penalize_file(&mut self.files, place);
        Ok(())
    }

    /// A file ends by going to a relationship.
    #[tactic(auto, using(crate::proofs::Refusing::steps))]
    pub fn transfer(&mut self, place: u32, relationship: u16) -> Result<(), SessionError>
        ensures refusal { result_err result ≡ refusal_of_transfer self.old place relationship }
        ensures after { self.new ≡ (if is_ok result then with_end self.old place (End.To relationship) else self.old) }
    {
        self.check_known(place)?;
        self.check_open(place)?;
        self.check_relationship(relationship)?;
        end_file(&mut self.files, place, End::To(relationship));
        Ok(())
    }

    /// A taken file ends by going back to the queue that it was taken from.
    #[tactic(auto, using(crate::proofs::Refusing::steps))]
    pub fn transfer_back(&mut self, place: u32) -> Result<(), SessionError>
        ensures refusal { result_err result ≡ refusal_of_transfer_back self.old place }
        ensures after { self.new ≡ (if is_ok result then with_end self.old place End.Back else self.old) }
    {
        self.check_known(place)?;
        self.check_open(place)?;
        self.check_taken(place)?;
        end_file(&mut self.files, place, End::Back);
        Ok(())
    }

    /// A file ends by leaving the flow.
    #[tactic(auto, using(crate::proofs::Refusing::steps))]
    pub fn remove(&mut self, place: u32) -> Result<(), SessionError>
        ensures refusal { result_err result ≡ refusal_of_remove self.old place }
        ensures after { self.new ≡ (if is_ok result then with_end self.old place End.Removed else self.old) }
    {
        self.check_known(place)?;
        self.check_open(place)?;
        end_file(&mut self.files, place, End::Removed);
        Ok(())
    }
}

fn end_file(files: &mut Vec<File>, place: u32, end: End)
    requires { place < length files.old.items }
    ensures { files.new.items ≡ change_at (λ file. record file { «end» = Some «end» }) place files.old.items }
{
    let file = &mut files[place as usize];
    file.end = Some(end);
}

fn penalize_file(files: &mut Vec<File>, place: u32)
    requires { place < length files.old.items }
    ensures { files.new.items ≡ change_at (λ file. record file { penalised = true }) place files.old.items }
{
    let file = &mut files[place as usize];
    file.penalised = true;
}

fn route_file(files: &mut Vec<File>, place: u32, relationship: u16)
    requires { place < length files.old.items }
    ensures { files.new.items ≡ change_at (λ file. record file { routed = Some relationship }) place files.old.items }
{
    let file = &mut files[place as usize];
    file.routed = Some(relationship);
}
