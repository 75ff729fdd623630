//! The processor that joins files: it takes many, and makes one of them.
#![tactic(auto)]

mod contents;
mod describing;
mod fragments;
mod joining;
mod merge_content;
mod passing;
mod taken;

pub use merge_content::MergeContent;

/// The place of the relationship of the joined file.
const MERGED: u16 = 0;

/// The place of the relationship of the taken files where they were joined.
const ORIGINAL: u16 = 1;

/// The place of the relationship to which a MergeContent gives up.
const FAILURE: u16 = 2;
