//! The numbers of the events that name a file, for each file.
ghost use Rattle.std.specs.Prelude.{◌≡◌, ℕ, ◌==◌, true, OnOk};
ghost use Rattle.std.specs.List.{list_any};
ghost use Rattle.prov_index.specs.Index.{names_file};
ghost use Rattle.prov_index.specs.Lists.{list_of, last_is, noted, noted_if, HasRoomToNote, IsReadyAt};

use flowfile_record::Event;
use std::alloc::{AllocError, Global};
use std::collections::BTreeMap;

/// The numbers of events by the file that they name.
pub(crate) type Lists = BTreeMap<u64, Vec<u64>>;

/// Makes room for an event's number in the list of each file that the event names.
pub(crate) fn reserve_event(
    alloc: Global,
    lists: &mut Lists,
    event: &Event,
) -> Result<(), AllocError>
    ensures same { (file : ℕ) → list_of lists.new file ≡ list_of lists.old file }
    ensures ready { OnOk result
        ((file : ℕ) → names_file file event.now ≡ true → IsReadyAt lists.new event.now.number file) }
{
    let number = event.number;
    reserve(alloc, lists, event.file, number)?;
    reserve_all(alloc, lists, event.parents.as_slice(), number)?;
    reserve_all(alloc, lists, event.children.as_slice(), number)
}

/// Adds an event's number to the list of each file that the event names, once each.
pub(crate) fn note_event(lists: &mut Lists, event: &Event)
    requires { (file : ℕ) → names_file file event.now ≡ true → IsReadyAt lists.old event.now.number file }
    ensures { (file : ℕ) → list_of lists.new file
        ≡ noted_if (names_file file event.now) event.now.number (list_of lists.old file) }
{
    let number = event.number;
    note(lists, event.file, number);
    note_all(lists, event.parents.as_slice(), number);
    note_all(lists, event.children.as_slice(), number);
}

fn reserve_all(
    alloc: Global,
    lists: &mut Lists,
    files: &[u64],
    number: u64,
) -> Result<(), AllocError>
    ensures same { (file : ℕ) → list_of lists.new file ≡ list_of lists.old file }
    ensures kept { (file : ℕ) → IsReadyAt lists.old number file → IsReadyAt lists.new number file }
    ensures ready { OnOk result ((file : ℕ) → list_any (λ f. f == file) files.now ≡ true
        → IsReadyAt lists.new number file) }
{
    for file in files {
        reserve(alloc, lists, *file, number)?;
    }
    Ok(())
}

// Makes room for one number in the list of a file. A number to come is given for what the clauses say.
fn reserve(alloc: Global, lists: &mut Lists, file: u64, number: u64) -> Result<(), AllocError>
    ensures same { (other : ℕ) → list_of lists.new other ≡ list_of lists.old other }
    ensures kept { (other : ℕ) → IsReadyAt lists.old number other → IsReadyAt lists.new number other }
    ensures ready { OnOk result (IsReadyAt lists.new number file) }
{
    if let Some(list) = lists.get_mut(&file) {
        return list.reserve(1);
    }
    let mut list = Vec::new(alloc);
    list.reserve(1)?;
    lists.insert(file, list)?;
    Ok(())
}

fn note_all(lists: &mut Lists, files: &[u64], number: u64)
    requires { (file : ℕ) → list_any (λ f. f == file) files.now ≡ true → IsReadyAt lists.old number file }
    ensures lists { (file : ℕ) → list_of lists.new file
        ≡ noted_if (list_any (λ f. f == file) files.now) number (list_of lists.old file) }
    ensures kept { (file : ℕ) → IsReadyAt lists.old number file → IsReadyAt lists.new number file }
{
    for file in files {
        note(lists, *file, number);
    }
}

fn note(lists: &mut Lists, file: u64, number: u64)
    requires { IsReadyAt lists.old number file }
    ensures lists { (other : ℕ) → list_of lists.new other ≡ noted_if (file == other) number (list_of lists.old other) }
    ensures kept { (other : ℕ) → IsReadyAt lists.old number other → IsReadyAt lists.new number other }
{
    if let Some(list) = lists.get_mut(&file) {
        put_number(list, number);
    }
}

// Adds a number behind the others, unless it is the last of them.
fn put_number(list: &mut Vec<u64>, number: u64)
    requires { HasRoomToNote number list.old }
    ensures items { list.new.items ≡ noted number list.old.items }
    ensures ready { HasRoomToNote number list.new }
{
    if !is_last(list, number) {
        list.push_reserved(number);
    }
}

fn is_last(list: &[u64], number: u64) -> bool
    ensures { result ≡ last_is number list.now }
{
    match list.last() {
        Some(last) => *last == number,
        None => false,
    }
}
