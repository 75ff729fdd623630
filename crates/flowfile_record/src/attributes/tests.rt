//! Attributes and a copy of them: what changes one leaves the other.

use crate::Attributes;
use std::alloc::Global;
use std::process::Abort;
use std::test::Fail;

type Pairs = &'static [(&'static str, &'static str)];

// What changes attributes: a put, a removal, or that they keep what others have too.
enum Change {
    Put(&'static str, &'static str),
    Remove(&'static str),
    Keep(Pairs),
}

const PAIRS: Pairs = &[("a", "1"), ("b", "2")];

// A change of these pairs, and what it makes of them.
const CASES: [(Change, Pairs); 5] = [
    (Change::Put("b", "3"), &[("a", "1"), ("b", "3")]),
    (Change::Put("c", "4"), &[("a", "1"), ("b", "2"), ("c", "4")]),
    (Change::Remove("a"), &[("b", "2")]),
    (Change::Keep(&[("a", "1"), ("b", "3")]), &[("a", "1")]),
    (Change::Keep(&[]), &[]),
];

fn attributes_of(alloc: Global, pairs: Pairs) -> Result<Attributes, Fail> {
    let mut attributes = Attributes::new(alloc);
    for (key, value) in pairs {
        attributes.put(key, value)?;
    }
    Ok(attributes)
}

fn apply(alloc: Global, attributes: &mut Attributes, change: &Change) -> Result<(), Fail> {
    match change {
        Change::Put(key, value) => {
            attributes.put(key, value)?;
        }
        Change::Remove(key) => {
            attributes.remove(key);
        }
        Change::Keep(pairs) => attributes.keep_shared(&attributes_of(alloc, pairs)?),
    }
    Ok(())
}

fn assert_pairs(rt: &impl Abort, attributes: &Attributes, pairs: Pairs) {
    for (place, pair) in pairs.iter().enumerate() {
        assert_eq!(rt; attributes.pair(place as u64), Some(*pair));
    }
    assert_eq!(rt; attributes.len(), pairs.len() as u64);
}

#[test]
fn a_change_leaves_the_other(rt: HostRuntime) -> Result<(), Fail> {
    let alloc = rt.alloc();
    for (change, pairs) in &CASES {
        let original = attributes_of(alloc, PAIRS)?;
        let mut copy = original.copy()?;
        apply(alloc, &mut copy, change)?;
        assert_pairs(&rt, &copy, pairs);
        assert_pairs(&rt, &original, PAIRS);
        let mut original = attributes_of(alloc, PAIRS)?;
        let copy = original.copy()?;
        apply(alloc, &mut original, change)?;
        assert_pairs(&rt, &original, pairs);
        assert_pairs(&rt, &copy, PAIRS);
    }
    Ok(())
}
