//! A flow file as a queue and the store hold it.
ghost use Rattle.std.specs.Prelude.{◌≡◌, IfOk};

use crate::{Attributes, ContentRef};
use std::alloc::AllocError;

/// A flow file: its attributes, and a reference to its content. Its number is its own in the store; its arrival
/// number gives its place in its queue. `entered` is the moment at which the oldest data that it comes from entered;
/// it isn't taken before `penalty_end`, which is 0 for a file without a penalty.
#[derive(Debug, Drop)]
pub struct FlowFile {
    pub number: u64,
    pub attributes: Attributes,
    pub content: ContentRef,
    pub entered: u64,
    pub penalty_end: u64,
    pub arrival: u64,
}

impl FlowFile {
    /// A copy of this flow file.
    pub fn copy(&self) -> Result<FlowFile, AllocError>
        ensures { IfOk result (λ copy. copy ≡ self.now) }
    {
        let attributes = self.attributes.copy()?;
        Ok(FlowFile {
            attributes,
            number: self.number,
            content: self.content,
            entered: self.entered,
            penalty_end: self.penalty_end,
            arrival: self.arrival,
        })
    }
}
