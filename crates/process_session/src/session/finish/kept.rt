//! The files that an outcome keeps.
ghost use Rattle.std.specs.Prelude.{◌≡◌, ◌≤◌, ◌<◌, ◌+◌, ◌++◌, ◌∷◌, [], ℕ, List, length, vec_len, vec_capacity};
ghost use Rattle.process_session.specs.Finish.{kept_files, worked_with};
ghost use Rattle.process_session.specs.Finishing.{kept_origins, KeepsFile};
ghost use Rattle.process_session.specs.declared.file.File.{File as Held};

use super::is_left_out;
use crate::file::File;
use flowfile_record::{End, Origin, Worked};
use std::collections::VecDeque;

/// The files that are kept, with these origins. There is room for them.
pub(super) fn kept_files(
    files: VecDeque<File>,
    origins: VecDeque<Origin>,
    room: Vec<Worked>,
) -> Vec<Worked>
    requires empty { room.items ≡ [] }
    requires room { length origins.items ≤ vec_capacity room }
    ensures { (stand : List (List ℕ)) → origins.items ≡ kept_origins stand files.items
        → result.items ≡ kept_files stand files.items }
{
    let mut files = files;
    let mut origins = origins;
    let mut kept = room;
    while let Some(file) = files.pop_front() {
        keep(&mut kept, &mut origins, file);
    }
    kept
}

/// One more file, which is left out or kept with the first of these origins.
fn keep(kept: &mut Vec<Worked>, origins: &mut VecDeque<Origin>, file: File)
    requires room { vec_len kept.old + length origins.old.items ≤ vec_capacity kept.old }
    ensures room { vec_len kept.new + length origins.new.items ≤ vec_capacity kept.new }
    ensures kept { (stand : List (List ℕ)) (more : List Held) → origins.old.items ≡ kept_origins stand (file ∷ more)
        → KeepsFile file kept.old.items kept.new.items origins.old.items origins.new.items stand more }
{
    if is_left_out(&file) {
        return;
    }
    if let Some(origin) = origins.pop_front() {
        keep_with(kept, origin, file);
    }
}

fn keep_with(kept: &mut Vec<Worked>, origin: Origin, file: File)
    requires room { vec_len kept.old < vec_capacity kept.old }
    ensures room { vec_len kept.new + vec_capacity kept.old ≤ vec_len kept.old + 1 + vec_capacity kept.new }
    ensures kept { kept.new.items ≡ kept.old.items ++ worked_with origin file ∷ [] }
{
    let _ = kept.push(worked(file, origin));
}

fn worked(file: File, origin: Origin) -> Worked
    ensures { result ≡ worked_with origin file }
{
    Worked {
        origin,
        attributes: file.attributes,
        body: file.body,
        end: file.end.unwrap_or(End::Removed),
        written: file.written,
        penalised: file.penalised,
        routed: file.routed,
    }
}
