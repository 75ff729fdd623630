//! The names of made files.
ghost use Rattle.std.specs.Prelude.{◌≡◌, ◌+◌, ◌≤◌, IfOk, string_bytes};
ghost use Rattle.flowfile_record.specs.Attributes.{encoded_size};
ghost use Rattle.flowfile_record.specs.Outcome.{filename_to_come};
ghost use Rattle.flowfile_record.specs.declared.attributes.TheConstants.{ATTRIBUTES_MAX};
ghost use Rattle.machine_model.specs.Placing.{uuid_text, with_filename};

use crate::numbers::is_made;
use flowfile_record::{Attributes, Origin, uuid_of};
use std::alloc::{AllocError, Global};

/// The attributes of a file of this number: a made one without a `filename` is named by its uuid.
pub fn with_filename(
    alloc: Global,
    store: u64,
    number: u64,
    origin: &Origin,
    attributes: Attributes,
) -> Result<Attributes, AllocError>
    requires { encoded_size attributes + filename_to_come origin.now attributes ≤ ATTRIBUTES_MAX }
    ensures { IfOk result (λ named. named ≡ with_filename origin.now store number attributes) }
{
    if !is_made(origin) || attributes.get("filename").is_some() {
        return Ok(attributes);
    }
    let mut named = attributes;
    let name = uuid_text(alloc, store, number)?;
    named.store("filename", name.as_str())?;
    Ok(named)
}

fn uuid_text(alloc: Global, store: u64, number: u64) -> Result<String, AllocError>
    ensures { IfOk result (λ text. string_bytes text ≡ uuid_text store number) }
{
    let id = uuid_of(store, number);
    format!(in alloc; "{id}")
}
