//! The children of a session's files.
ghost use Rattle.std.specs.Prelude.{◌≡◌, ◌++◌, ◌∷◌, [], replicate, slice_index_or, slice_set, IfOk, OnOk};
ghost use Rattle.settlement.specs.Telling.{all_children, parent_of, with_child_number};

use crate::file::EndedFile;
use flowfile_record::{Numbers, Origin};
use std::alloc::{AllocError, Global};

/// How a file comes from one that isn't joined with others: as a child with a content of its own or with a part of its
/// parent's, or as a copy.
#[derive(Clone, Copy, Debug, PartialEq, Eq)]
pub enum Kinship {
    Forked,
    Cloned,
}

/// The numbers of such children of each file, by place.
pub fn all_children(
    alloc: Global,
    kinship: Kinship,
    files: &[EndedFile],
) -> Result<Vec<Numbers>, AllocError>
    ensures { IfOk result (λ children. children.items ≡ all_children kinship files.now) }
{
    let mut all = childless(alloc, files.len() as u64)?;
    for file in files {
        add_child(&mut all, kinship, file)?;
    }
    Ok(all)
}

/// The children of some files, as long as none is found.
fn childless(alloc: Global, count: u64) -> Result<Vec<Numbers>, AllocError>
    ensures { IfOk result (λ none. none.items ≡ replicate count []) }
{
    let mut none = Vec::new(alloc);
    for _place in 0..count {
        none.push(Numbers::new(alloc))?;
    }
    Ok(none)
}

/// Adds the file's number to the children of the file that it comes from.
fn add_child(all: &mut Vec<Numbers>, kinship: Kinship, file: &EndedFile) -> Result<(), AllocError>
    ensures { OnOk result (all.new.items
        ≡ with_child_number (parent_of kinship file.now.worked.origin) file.now.number all.old.items) }
{
    match parent_of(kinship, &file.worked.origin) {
        Some(parent) => add_number(all, parent, file.number),
        None => Ok(()),
    }
}

fn add_number(all: &mut Vec<Numbers>, parent: u32, number: u64) -> Result<(), AllocError>
    ensures { OnOk result (all.new.items
        ≡ slice_set all.old.items parent (slice_index_or all.old.items parent [] ++ number ∷ [])) }
{
    match all.get_mut(parent as usize) {
        Some(children) => children.push(number),
        None => Ok(()),
    }
}

fn parent_of(kinship: Kinship, origin: &Origin) -> Option<u32>
    ensures { result ≡ parent_of kinship origin.now }
{
    match (kinship, origin) {
        (Kinship::Forked, Origin::Forked(parent) | Origin::Part(parent)) => Some(*parent),
        (Kinship::Cloned, Origin::Cloned(parent)) => Some(*parent),
        _ => None,
    }
}
