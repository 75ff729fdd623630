//! Entries that are named by a number.
ghost use Rattle.std.specs.Prelude.{◌≡◌, ℕ, ◌<◌, ◌^◌, IfOk, IfSome, Some, string_bytes};
ghost use Rattle.std.specs.Fmt.{decimal};
ghost use Rattle.disk_trait.specs.declared.file_name.FileKind.{FileKind as TheKind};
ghost use Rattle.disk_trait.specs.declared.file_name.FileName.{FileName as TheName};
ghost use Rattle.world_real.specs.StoreName.{kind_text, name_text};

use disk_trait::{FileKind, FileName};
use std::alloc::{AllocError, Global};
use std::io;

/// The text of a file's name: its kind, a dash and its number.
pub(crate) fn text_of(alloc: Global, name: FileName) -> Result<String, AllocError>
    ensures { IfOk result (λ text. string_bytes text ≡ name_text name) }
{
    let (kind, number) = (text_of_kind(name.kind), name.number);
    format!(in alloc; "{kind}-{number}")
}

/// The file that an entry is; `None` for any other entry.
pub(crate) fn store_name(text: &str) -> Option<FileName>
    ensures named { IfSome result (λ name. text.now ≡ name_text name) }
    ensures read { (name : TheName) → name.number < 2 ^ 64 → text.now ≡ name_text name → result ≡ Some name }
{
    let (kind, digits) = text.split_once('-')?;
    Some(FileName {
        kind: read_kind(kind)?,
        number: read_number(digits)?,
    })
}

fn text_of_kind(kind: FileKind) -> &'static str
    ensures { result.now ≡ kind_text kind }
{
    match kind {
        FileKind::Log => "log",
        FileKind::Snapshot => "snapshot",
        FileKind::Swap => "swap",
        FileKind::Claim => "claim",
        FileKind::Events => "events",
    }
}

fn read_kind(text: &str) -> Option<FileKind>
    ensures named { IfSome result (λ kind. text.now ≡ kind_text kind) }
    ensures read { (kind : TheKind) → text.now ≡ kind_text kind → result ≡ Some kind }
{
    match text {
        "log" => Some(FileKind::Log),
        "snapshot" => Some(FileKind::Snapshot),
        "swap" => Some(FileKind::Swap),
        "claim" => Some(FileKind::Claim),
        "events" => Some(FileKind::Events),
        _ => None,
    }
}

/// A number below 2^64 in decimal, with no sign and no zero in front.
pub(crate) fn read_number(digits: &str) -> Option<u64>
    ensures written { IfSome result (λ number. digits.now ≡ decimal number) }
    ensures read { (number : ℕ) → number < 2 ^ 64 → digits.now ≡ decimal number → result ≡ Some number }
{
    if digits == "0" {
        return Some(0);
    }
    let first = *digits.as_bytes().first()?;
    if first < b'1' || first > b'9' {
        return None;
    }
    digits.parse().ok()
}

/// Whether an entry of a folder wasn't given because its name isn't UTF-8, and so no name of ours.
pub(crate) fn is_no_text(error: &io::Error) -> bool {
    error.kind() == io::ErrorKind::InvalidFilename && error.raw_os_error().is_none()
}
