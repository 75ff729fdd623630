//! The kin that one event names.
ghost use Rattle.std.specs.Prelude.{◌≡◌};
ghost use Rattle.lineage_query.specs.Walk.{kin_towards};

use flowfile_record::{Event, EventKind};

/// Which way a walk goes.
#[derive(Clone, Copy, Debug, PartialEq, Eq)]
pub(crate) enum Way {
    /// To parents.
    Up,
    /// To children.
    Down,
}

/// The parents or the children of a file that an event names.
pub(crate) fn kin<'a>(event: &'a Event, way: Way, file: u64) -> &'a [u64]
    ensures { result.now ≡ kin_towards way file event.now }
{
    let parents = event.parents.as_slice();
    let children = event.children.as_slice();
    match event.kind {
        EventKind::Fork | EventKind::Join | EventKind::Clone => match way {
            Way::Up if children.contains(&file) => parents,
            Way::Down if parents.contains(&file) => children,
            _ => &[],
        },
        _ => &[],
    }
}
