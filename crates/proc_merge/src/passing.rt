//! Taken files that are passed on.
ghost use Rattle.std.specs.Prelude.{◌≡◌, ◌<◌, ◌≤◌, All, None, length, take};
ghost use Rattle.proc_merge.specs.Passing.{with_all_passed};

use process_session::Session;

/// All taken files, as they are, to a relationship.
pub(crate) fn pass_all(session: &mut Session, relationship: u16)
    requires all { length session.old.sources ≤ length session.old.files }
    requires still_open { All (λ file. file.«end» ≡ None) (take (length session.old.sources) session.old.files) }
    requires there { relationship < session.old.relationships }
    ensures { session.new ≡ with_all_passed session.old relationship }
{
    for place in 0..session.taken() {
        session.transfer(place, relationship).unwrap();
    }
}
