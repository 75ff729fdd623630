//! What a session made: its outcome.
ghost use Rattle.std.specs.Prelude.{◌≡◌, ◌≤◌, [], length, None, IfOk, IfErr, OnOk};
ghost use Rattle.std.specs.Option.{option_map};
ghost use Rattle.std.specs.Result.{result_err};
ghost use Rattle.flowfile_record.specs.Outcome.{IsOutcome};
ghost use Rattle.process_session.specs.Bench.{sizes_of};
ghost use Rattle.process_session.specs.Refusals.{refusal_of_finish};
ghost use Rattle.process_session.specs.Finish.{outcome_of, is_left_out, kept_files, standing_from};
ghost use Rattle.process_session.specs.Finishing.{IsPlanOf, sent_at};
ghost use Rattle.process_session.specs.Reasons.{IsErrorFor, IsRefusal, not_accounted, not_accounted_from};

mod kept;
mod origins;
mod standing;

use self::kept::kept_files;
use self::origins::origins_in;
use self::standing::{place_in, stands_of};
use super::Session;
use super::sizes::is_made;
use crate::file::{File, SourceList};
use crate::{FILES_MAX, SessionError};
use flowfile_record::{End, Origin, Outcome, Sent, Worked, WorkedList};
use std::alloc::{AllocError, Global};
use std::collections::VecDeque;

/// What an outcome needs beside the files themselves.
#[derive(Drop)]
struct Plan {
    /// The origins of the files that are kept, in their order.
    origins: Vec<Origin>,
    /// Room for as many files.
    room: Vec<Worked>,
    /// The place of the sent file.
    sent: Option<u32>,
}

impl Session {
    /// The outcome, where every file has ended. Made files that were removed aren't in it: the places close up, and
    /// where an origin names such a file, that file's own parents stand in its place. On a refusal the session is
    /// given back as it was.
    pub fn finish(self) -> Result<Outcome, (Session, SessionError)>
        ensures refusal { IsErrorFor (option_map (λ refused. refused.1) (result_err result)) (refusal_of_finish self) }
        ensures outcome { IfOk result (λ outcome. outcome ≡ outcome_of self) }
        ensures sound { IfOk result (IsOutcome self.relationships (sizes_of self.sources)) }
        ensures given_back { IfErr result (λ refused. refused.0 ≡ self) }
    {
        match self.finish_with_sources() {
            Ok((outcome, _)) => Ok(outcome),
            Err(refused) => Err(refused),
        }
    }

    /// The outcome, as `finish` gives it, and beside it what stays of the files that were taken, by their places.
    pub fn finish_with_sources(self) -> Result<(Outcome, SourceList), (Session, SessionError)>
        ensures refusal { IsErrorFor (option_map (λ refused. refused.1) (result_err result)) (refusal_of_finish self) }
        ensures outcome { IfOk result (λ finished. finished.0 ≡ outcome_of self) }
        ensures sound { IfOk result (λ finished. IsOutcome self.relationships (sizes_of self.sources) finished.0) }
        ensures sources { IfOk result (λ finished. finished.1 ≡ self.sources) }
        ensures given_back { IfErr result (λ refused. refused.0 ≡ self) }
    {
        match self.plan() {
            Ok(plan) => Ok(self.outcome(plan)),
            Err(error) => Err((self, error)),
        }
    }

    fn plan(&self) -> Result<Plan, SessionError>
        ensures refusal { IsRefusal result (refusal_of_finish self.now) }
        ensures ended { OnOk result (not_accounted self.now ≡ None) }
        ensures plan { IfOk result (λ plan. IsPlanOf self.now.files self.now.sent plan) }
    {
        self.check_accounted()?;
        let plan = plan_of(self.alloc, &self.files, &self.sent)?;
        Ok(plan)
    }

    fn check_accounted(&self) -> Result<(), SessionError>
        ensures { result_err result ≡ not_accounted self.now }
    {
        check_ended(&self.files)
    }

    fn outcome(self, plan: Plan) -> (Outcome, SourceList)
        requires ended { not_accounted self ≡ None }
        requires plan { IsPlanOf self.files self.sent plan }
        ensures outcome { result.0 ≡ outcome_of self }
        ensures sound { IsOutcome self.relationships (sizes_of self.sources) result.0 }
        ensures sources { result.1 ≡ self.sources }
    {
        let Session {
            alloc: _,
            relationships: _,
            sources,
            files,
            sent,
            handed: _,
            counted: _,
        } = self;
        let outcome = outcome_by(plan, files, sent);
        (outcome, SourceList::from(sources))
    }
}

fn check_ended(files: &[File]) -> Result<(), SessionError>
    requires { length files.now ≤ FILES_MAX }
    ensures { result_err result ≡ not_accounted_from 0 files.now }
{
    let mut place = 0;
    for file in files {
        if file.end.is_none() {
            return Err(SessionError::NotAccounted { place });
        }
        place += 1;
    }
    Ok(())
}

fn plan_of(alloc: Global, files: &[File], sent: &Option<Sent>) -> Result<Plan, AllocError>
    requires { length files.now ≤ FILES_MAX }
    ensures { IfOk result (λ plan. IsPlanOf files.now sent.now plan) }
{
    let stands = stands_of(alloc, files)?;
    let origins = origins_in(alloc, &stands, files)?;
    let room = Vec::with_capacity(alloc, origins.len())?;
    let sent = match sent {
        Some(sent) => place_in(&stands, files, sent.place),
        None => None,
    };
    Ok(Plan {
        origins,
        room,
        sent,
    })
}

fn outcome_by(plan: Plan, files: Vec<File>, sent: Option<Sent>) -> Outcome
    requires { IsPlanOf files.items sent plan }
    ensures files { result.files ≡ kept_files (standing_from [] 0 files.items) files.items }
    ensures sent { result.sent ≡ sent_at plan.sent sent }
{
    let kept = kept_files(
        VecDeque::from_vec(files),
        VecDeque::from_vec(plan.origins),
        plan.room,
    );
    Outcome {
        files: WorkedList::from(kept),
        sent: sent_at(plan.sent, sent),
    }
}

fn sent_at(place: Option<u32>, sent: Option<Sent>) -> Option<Sent>
    ensures { result ≡ sent_at place sent }
{
    match (place, sent) {
        (Some(place), Some(sent)) => Some(Sent {
            place,
            name: sent.name,
        }),
        _ => None,
    }
}

fn is_left_out(file: &File) -> bool
    ensures { result ≡ is_left_out file.now }
{
    is_made(&file.origin) && matches!(file.end, Some(End::Removed))
}
