//! The files of a session that has ended, with what the settlement gives them.
ghost use Rattle.std.specs.Prelude.{◌≡◌, ◌+◌, ◌≤◌, ◌<◌, ◌^◌, length, map, zip, All, IfOk};
ghost use Rattle.machine_model.specs.Placing.{numbers_from, entered_in, penalty_end_of};
ghost use Rattle.settlement.specs.Ending.{place_of, ended_file, ended_files, named_file, IsWorkedWithin};

use crate::content::content_in;
use crate::entered::entered_in;
use crate::file::EndedFile;
use crate::goes::goes_by;
use crate::naming::with_filename;
use crate::numbers::numbers_from;
use flowfile_record::{FlowFile, Worked};
use machine_model::{Flow, Processor};
use process_session::Source;
use std::alloc::{AllocError, Global};

/// Where and when a session ended, and over which files.
#[derive(Clone, Copy)]
pub struct Setting<'s> {
    pub alloc: Global,
    pub flow: &'s Flow,
    pub place: u16,
    pub processor: &'s Processor,
    pub store: u64,
    pub moment: u64,
    pub taken: &'s [FlowFile],
    pub sources: &'s [Source],
}

impl Setting<'_> {
    /// The files of an outcome, of which the made ones have numbers from the next one on.
    pub fn end_files(&self, next: u64, files: Vec<Worked>) -> Result<Vec<EndedFile>, AllocError>
        requires connections { length self.now.flow.now.connections ≤ 2 ^ 16 }
        requires room { next + length files.items < 2 ^ 64 }
        requires within { All (IsWorkedWithin self.now.taken.now self.now.sources.now) files.items }
        ensures { IfOk result (λ ended. ended.items ≡ ended_files (place_of self.now) next files.items) }
    {
        let numbers = numbers_from(self.alloc, next, self.taken, &files)?;
        let entered = entered_in(self.alloc, self.moment, self.taken, &files)?;
        self.end_each(&numbers, &entered, files)
    }

    fn end_each(
        &self,
        numbers: &[u64],
        entered: &[u64],
        files: Vec<Worked>,
    ) -> Result<Vec<EndedFile>, AllocError>
        requires connections { length self.now.flow.now.connections ≤ 2 ^ 16 }
        requires numbers { length numbers.now ≡ length files.items }
        requires entered { length entered.now ≡ length files.items }
        requires within { All (IsWorkedWithin self.now.taken.now self.now.sources.now) files.items }
        ensures { IfOk result (λ ended. ended.items
            ≡ map (λ f. ended_file (place_of self.now) (f.0, f.1.0, f.1.1))
            (zip numbers.now (zip entered.now files.items))) }
    {
        let mut ended = Vec::new(self.alloc);
        let mut place = 0;
        for worked in files {
            let file = self.end_file(numbers[place], entered[place], worked)?;
            ended.push(file)?;
            place += 1;
        }
        Ok(ended)
    }

    fn end_file(&self, number: u64, entered: u64, worked: Worked) -> Result<EndedFile, AllocError>
        requires connections { length self.now.flow.now.connections ≤ 2 ^ 16 }
        requires within { IsWorkedWithin self.now.taken.now self.now.sources.now worked }
        ensures { IfOk result (λ ended. ended ≡ ended_file (place_of self.now) (number, entered, worked)) }
    {
        let content = content_in(self.taken, self.sources, &worked.body);
        let goes = goes_by(
            self.alloc,
            self.flow,
            self.place,
            self.processor,
            worked.end,
        )?;
        let penalty_end = penalty_end_of(worked.penalised, self.moment, self.processor.penalty);
        let worked = self.name(number, worked)?;
        Ok(EndedFile {
            number,
            worked,
            content,
            entered,
            penalty_end,
            goes,
        })
    }

    /// The file with the attributes that it has from now on.
    fn name(&self, number: u64, worked: Worked) -> Result<Worked, AllocError>
        requires { IsWorkedWithin self.now.taken.now self.now.sources.now worked }
        ensures { IfOk result (λ named. named ≡ named_file self.now.store number worked) }
    {
        let Worked {
            origin,
            attributes,
            body,
            end,
            written,
            penalised,
            routed,
        } = worked;
        let attributes = with_filename(self.alloc, self.store, number, &origin, attributes)?;
        Ok(Worked {
            origin,
            attributes,
            body,
            end,
            written,
            penalised,
            routed,
        })
    }
}

fn penalty_end_of(penalised: bool, moment: u64, penalty: u64) -> u64
    ensures { result ≡ penalty_end_of penalised moment penalty }
{
    if penalised {
        moment.saturating_add(penalty)
    } else {
        0
    }
}
