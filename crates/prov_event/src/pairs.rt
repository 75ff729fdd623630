//! Which flow files come from which by one event.
ghost use Rattle.std.specs.Prelude.{◌≡◌, ◌+◌, ◌≤◌, ◌++◌, map, length, vec_len, vec_capacity, IsOk, OnOk, OnErr};
ghost use Rattle.flowfile_record.specs.Kin.{pairs_named, pairs_of};

use flowfile_record::{Event, EventKind};
use std::alloc::AllocError;

/// Appends the pairs of a child and a parent that an event names: each child with each parent, in their order, where it
/// is a FORK, a JOIN or a CLONE, and none where it is of another kind. It fails only where there is less room than the
/// pairs need, and then the list stays.
pub fn kin(event: &Event, list: &mut Vec<(u64, u64)>) -> Result<(), AllocError>
    ensures ok { OnOk result (list.new.items ≡ list.old.items ++ pairs_named event.now) }
    ensures err { OnErr result (list.new.items ≡ list.old.items) }
    ensures room { vec_len list.old + length (pairs_named event.now) ≤ vec_capacity list.old → IsOk result }
    ensures capacity { vec_capacity list.old ≤ vec_capacity list.new }
{
    match event.kind {
        EventKind::Fork | EventKind::Join | EventKind::Clone => {
            add_pairs(list, event.parents.as_slice(), event.children.as_slice())
        }
        _ => Ok(()),
    }
}

// Each child with each parent.
#[tactic(auto, using(crate::proofs::Sizes::pairs_size, crate::proofs::Sizes::one_child_more))]
fn add_pairs(
    list: &mut Vec<(u64, u64)>,
    parents: &[u64],
    children: &[u64],
) -> Result<(), AllocError>
    ensures ok { OnOk result (list.new.items ≡ list.old.items ++ pairs_of parents.now children.now) }
    ensures err { OnErr result (list.new.items ≡ list.old.items) }
    ensures room { vec_len list.old + length (pairs_of parents.now children.now) ≤ vec_capacity list.old → IsOk result }
    ensures capacity { vec_capacity list.old ≤ vec_capacity list.new }
{
    list.reserve(children.len().saturating_mul(parents.len()))?;
    for child in children {
        put_pairs(list, *child, parents);
    }
    Ok(())
}

fn put_pairs(list: &mut Vec<(u64, u64)>, child: u64, parents: &[u64])
    requires { vec_len list.old + length parents.now ≤ vec_capacity list.old }
    ensures items { list.new.items ≡ list.old.items ++ map (λ parent. (child, parent)) parents.now }
    ensures len { vec_len list.new ≡ vec_len list.old + length parents.now }
    ensures capacity { vec_capacity list.old ≤ vec_capacity list.new }
{
    for parent in parents {
        list.push_reserved((child, *parent));
    }
}
