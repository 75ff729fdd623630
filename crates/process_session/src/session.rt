//! A session: the files that it holds, and how they are looked at.
ghost use Rattle.std.specs.Prelude.{◌≡◌, ◌+◌, ◌<◌, ◌≤◌, List, length, IfOk, OnOk, OnErr, IfErr, MatchResult, All, slice_get, vec_len};
ghost use Rattle.std.specs.Option.{option_map};
ghost use Rattle.std.specs.Result.{result_err};
ghost use Rattle.process_session.specs.Bench.{Bench, bench_of, bench_bytes, IsWhole};
ghost use Rattle.process_session.specs.Refusals.{refusal_of_content};
ghost use Rattle.process_session.specs.Reasons.{no_bytes};

mod bodies;
mod changing;
mod checks;
mod ending;
mod finish;
mod making;
mod sizes;
mod taking;

use self::bodies::body_bytes;
use crate::file::{File, Source, TakenList};
use crate::{SessionError, TAKEN_MAX};
use flowfile_record::{Attributes, Sent};
use std::alloc::{AllocError, Global};
use std::marker::Model;

/// The files that a processor works on, and what it does with them.
#[derive(Drop)]
pub struct Session {
    alloc: Global,
    relationships: u16,
    sources: Vec<Source>,
    files: Vec<File>,
    sent: Option<Sent>,
    handed: u64,
    counted: u64,
}

impl Model for Session {
    ghost use Rattle.std.specs.Coded.{codes};
    ghost use Rattle.flowfile_record.specs.contracts.attributes.Attributes as attributes;
    ghost use Rattle.process_session.specs.Bench.{Bench};

    ghost Value = { Bench };

    ghost coded = { Prim.hlevel (codes, attributes.the_row.coded) };

    ghost use Rattle.process_session.specs.Inside.{bench_in, IsSoundSession};

    ghost view = { bench_in };

    ghost invariant = { IsSoundSession };
}

impl Session {
    /// A session of these taken files, for a processor with so many relationships.
    pub fn new(alloc: Global, relationships: u16, taken: TakenList) -> Result<Session, AllocError>
        requires few { length taken ≤ TAKEN_MAX }
        requires whole { All IsWhole taken }
        ensures { IfOk result (λ session. session ≡ bench_of relationships taken) }
    {
        let begun = taking::begin(alloc, taken.into_vec())?;
        Ok(Session {
            alloc,
            relationships,
            sources: begun.sources,
            files: begun.files,
            sent: None,
            handed: 0,
            counted: begun.counted,
        })
    }

    /// How many files were taken.
    pub fn taken(&self) -> u32
        ensures { result ≡ length self.now.sources }
    {
        self.sources.len() as u32
    }

    /// The attributes of the file at a place, as they are now.
    pub fn attributes(&self, place: u32) -> Option<&Attributes>
        ensures { option_map (λ attributes. attributes.now) result
            ≡ option_map (λ file. file.attributes) (slice_get self.now.files place) }
    {
        let file = self.files.get(place as usize)?;
        Some(&file.attributes)
    }

    /// The uuid of a taken file.
    pub fn uuid(&self, place: u32) -> Option<&str>
        ensures { option_map (λ uuid. uuid.now) result
            ≡ option_map (λ source. source.uuid) (slice_get self.now.sources place) }
    {
        let source = self.sources.get(place as usize)?;
        Some(source.uuid.as_str())
    }

    /// The content of the file at a place, as it is now.
    #[tactic(auto, using(crate::proofs::Refusing::steps))]
    pub fn content(&self, place: u32) -> Result<&[u8], SessionError>
        ensures refusal { result_err result ≡ refusal_of_content self.now place }
        ensures content { IfOk result (λ bytes. bench_bytes self.now place ≡ Some bytes.now) }
    {
        self.check_known(place)?;
        self.bytes_at(place)
    }

    /// The content of a file, which has to be there.
    #[tactic(auto, unfolding(crate::specs::Reasons::no_bytes))]
    fn bytes_at(&self, place: u32) -> Result<&[u8], SessionError>
        requires { place < length self.now.files }
        ensures refusal { result_err result ≡ no_bytes self.now place }
        ensures content { IfOk result (λ bytes. bench_bytes self.now place ≡ Some bytes.now) }
    {
        match body_bytes(&self.sources, &self.files[place as usize].body) {
            Some(bytes) => Ok(bytes),
            None => Err(SessionError::NoBytes),
        }
    }

    /// The session is given up, and the taken files are as they were.
    pub fn rollback(self) {
        drop(self);
    }
}
