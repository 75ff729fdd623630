//! The files of a session: as they were taken, and as they are now.
use flowfile_record::{Attributes, Body, Bytes, End, Origin, Sequence, Text};

/// A flow file as a session takes it: its attributes, its uuid as a text, the size of its content in bytes, and the
/// content where it was read.
#[derive(Debug, Drop)]
pub struct Taken {
    pub attributes: Attributes,
    pub uuid: Text,
    pub size: u64,
    pub bytes: Option<Bytes>,
}

/// The files that a session takes, by their places.
pub type TakenList = Sequence<Taken>;

/// What stays of a taken file, whatever the session does with it: its uuid, and its content as it was taken.
#[derive(Debug, Drop)]
pub struct Source {
    pub uuid: Text,
    pub size: u64,
    pub bytes: Option<Bytes>,
}

/// What stays of the files that a session took, by their places.
pub type SourceList = Sequence<Source>;

/// A file of a session, as it is now. Its origin and its body name places of the session.
#[derive(Debug, Drop)]
pub struct File {
    pub origin: Origin,
    pub attributes: Attributes,
    pub body: Body,
    /// Where it goes, once that is settled.
    pub end: Option<End>,
    pub written: bool,
    pub penalised: bool,
    pub routed: Option<u16>,
}
