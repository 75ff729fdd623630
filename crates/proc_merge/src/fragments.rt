//! Whether files are all fragments of one whole, in turn.
ghost use Rattle.std.specs.Prelude.{◌≡◌, Some, length};
ghost use Rattle.std.specs.List.{enumerate_from, list_all};
ghost use Rattle.machine_model.specs.Fragments.{fragment_seen};
ghost use Rattle.machine_model.specs.MergeContent.{are_fragments_of, may_join};
ghost use Rattle.machine_model.specs.Taking.{fragment_of, is_fragment_at};
ghost use Rattle.machine_model.specs.declared.kind.MergeStrategy.TheVariants as strategy;
ghost use Rattle.proc_merge.specs.Taken.{TookSome, files_seen};

use crate::taken::attributes_of;
use flowfile_record::Attributes;
use machine_model::{Fragment, MergeStrategy, fragment_of};
use process_session::Session;

/// Whether the taken files may be joined: under Defragment they have to be all fragments of one whole, in turn.
pub(crate) fn may_join(strategy: MergeStrategy, session: &Session) -> bool
    requires { TookSome session.now }
    ensures { result ≡ may_join strategy (files_seen session.now) }
{
    match strategy {
        MergeStrategy::BinPacking => true,
        MergeStrategy::Defragment => are_fragments(session),
    }
}

fn are_fragments(session: &Session) -> bool
    requires { TookSome session.now }
    ensures { result ≡ may_join strategy.Defragment (files_seen session.now) }
{
    match fragment_of(attributes_of(session, 0)) {
        Some(first) => are_fragments_of(session, first),
        None => false,
    }
}

/// Whether they are as many as the whole of this one has, and stand in turn.
fn are_fragments_of(session: &Session, fragment: Fragment<'_>) -> bool
    requires { TookSome session.now }
    ensures { result ≡ are_fragments_of (files_seen session.now) (Some (fragment_seen fragment.entry)) }
{
    u64::from(session.taken()) == fragment.whole.count && are_in_turn(session, fragment)
}

fn are_in_turn(session: &Session, fragment: Fragment<'_>) -> bool
    requires { TookSome session.now }
    ensures { result ≡ list_all (λ file. is_fragment_at (fragment_seen fragment.entry) file.0
        (fragment_of file.1.attributes)) (enumerate_from 1 (files_seen session.now)) }
{
    for place in 0..session.taken() {
        let index = u64::from(place) + 1;
        if !is_fragment_at(fragment, index, attributes_of(session, place)) {
            return false;
        }
    }
    true
}

/// Whether a file of these attributes is a fragment of the same whole, at this index.
fn is_fragment_at(fragment: Fragment<'_>, index: u64, attributes: &Attributes) -> bool
    ensures { result ≡ is_fragment_at (fragment_seen fragment.entry) index (fragment_of attributes.now) }
{
    match fragment_of(attributes) {
        Some(other) => {
            other.whole.identifier == fragment.whole.identifier
                && other.whole.count == fragment.whole.count
                && other.index == index
        }
        None => false,
    }
}
