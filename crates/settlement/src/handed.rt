//! What a session ends with.
use flowfile_record::{FileList, Outcome};
use process_session::SourceList;

/// A session that has ended: its processor's place in the flow, the place of the connection that its files were taken
/// from, these files by place, as they stood in their queue, what stays of them, and its outcome.
#[derive(Drop)]
pub struct Ended {
    pub processor: u16,
    pub connection: u16,
    pub taken: FileList,
    pub sources: SourceList,
    pub outcome: Outcome,
}
