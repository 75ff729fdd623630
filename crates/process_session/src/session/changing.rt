//! How contents and attributes change.
ghost use Rattle.std.specs.Prelude.{◌≡◌, ◌+◌, ◌<◌, ◌≤◌, ◌++◌, ◌∷◌, ◌&&◌, [], length, is_ok, not, true, IfOk, Ok, None, IsTrue, OnOk, OnErr, All, unwrap_or, if◌then◌else◌};
ghost use Rattle.std.specs.Result.{result_err};
ghost use Rattle.std.specs.FinMap.{contains_key, insert, remove};
ghost use Rattle.flowfile_record.specs.Attributes.{IsWithinLimits, encoded_size, has_key_length, is_uuid};
ghost use Rattle.process_session.specs.Bench.{HasItsSize, IsBodyOf, attribute_size, bench_attributes, attributes_in, body_bytes, bytes_in};
ghost use Rattle.process_session.specs.Changes.{attributed_file, written_file, with_written, with_appended, with_put, with_removed, change_at};
ghost use Rattle.process_session.specs.Refusals.{refusal_of_write, refusal_of_append, refusal_of_put, refusal_of_remove_attribute};
ghost use Rattle.process_session.specs.Reasons.{IsRefusal, already_ended, content_too_large, first_refusal, past_limits, unknown_file};

use super::Session;
use super::bodies::{body_bytes, joined_bytes};
use super::checks::{check_attributes, check_content, check_key};
use crate::file::{File, Source};
use crate::{SessionError, WRITTEN_MAX};
use flowfile_record::{ATTRIBUTES_MAX, Attributes, Body, Bytes, CONTENT_MAX, Put};
use std::alloc::{AllocError, Global};

impl Session {
    /// The content of a file is replaced.
    pub fn write(&mut self, place: u32, bytes: Vec<u8>) -> Result<(), SessionError>
        ensures refusal { result_err result ≡ refusal_of_write self.old place bytes.items }
        ensures after { self.new ≡ (if is_ok result then with_written self.old place bytes.items else self.old) }
    {
        let size = bytes.len() as u64;
        self.check_write(place, size)?;
        write_file(&mut self.files, place, Bytes::from(bytes));
        self.handed += size;
        Ok(())
    }

    /// Whether a content of so many bytes may be written.
    #[tactic(auto, using(crate::proofs::Refusing::steps))]
    fn check_write(&self, place: u32, size: u64) -> Result<(), SessionError>
        ensures refusal { result_err result ≡ first_refusal (unknown_file self.now place ∷
            already_ended self.now place ∷
            content_too_large size ∷
            past_limits (length self.now.files) (attribute_size self.now) (self.now.handed + size) ∷ []) }
        ensures there { OnOk result (place < length self.now.files) }
        ensures handed { OnOk result (self.now.handed + size ≤ WRITTEN_MAX) }
        ensures fits { OnOk result (size ≤ CONTENT_MAX) }
    {
        self.check_known(place)?;
        self.check_open(place)?;
        check_content(size)?;
        self.check_written(size)
    }

    /// The content of a file is extended.
    pub fn append(&mut self, place: u32, bytes: &[u8]) -> Result<(), SessionError>
        ensures refusal { IsRefusal result (refusal_of_append self.old place bytes.now) }
        ensures after { self.new ≡ (if is_ok result then with_appended self.old place bytes.now else self.old) }
    {
        self.check_known(place)?;
        self.check_open(place)?;
        let size = self.check_bytes(place)?;
        let more = bytes.len() as u64;
        check_content(size + more)?;
        self.check_written(more)?;
        let sources = self.sources.as_slice();
        append_file(self.alloc, sources, &mut self.files, place, bytes)?;
        self.handed += more;
        Ok(())
    }

    /// Puts a value under a key of a file's attributes, in place of an earlier one. For the key `uuid` it answers
    /// `Ignored`, and changes nothing.
    #[tactic(auto, using(crate::proofs::Refusing::refusals))]
    pub fn put_attribute(&mut self, place: u32, key: &str, value: &str) -> Result<Put, SessionError>
        ensures refusal { IsRefusal result (refusal_of_put self.old place key.now value.now) }
        ensures put { IfOk result (λ put. put ≡ (if is_uuid key.now then Put.Ignored else Put.Stored)) }
        ensures ignored { is_uuid key.now ≡ true → refusal_of_put self.old place key.now value.now ≡ None
            → result ≡ Ok Put.Ignored }
        ensures after { self.new ≡ (if is_ok result then with_put self.old place key.now value.now else self.old) }
    {
        self.check_known(place)?;
        self.check_open(place)?;
        if key == "uuid" {
            return Ok(Put::Ignored);
        }
        check_key(key)?;
        let old = self.size_at(place);
        let new = self.size_with(place, key, value);
        let name = self.filename_with(place, key);
        check_attributes(new + name)?;
        self.check_attribute_room(old, new)?;
        put_in_file(&mut self.files, place, key, value)?;
        self.counted = self.counted - old + new;
        Ok(Put::Stored)
    }

    /// Removes a key and its value from a file's attributes, and tells whether it was there.
    #[tactic(auto, using(crate::proofs::Refusing::refusals))]
    pub fn remove_attribute(&mut self, place: u32, key: &str) -> Result<bool, SessionError>
        ensures refusal { result_err result ≡ refusal_of_remove_attribute self.old place key.now }
        ensures was_there { IfOk result
            (λ was_there. was_there ≡ contains_key (bench_attributes self.old place) key.now) }
        ensures after { self.new ≡ (if is_ok result then with_removed self.old place key.now else self.old) }
    {
        self.check_known(place)?;
        self.check_open(place)?;
        let old = self.size_at(place);
        let new = self.size_without(place, key);
        let name = self.filename_without(place, key);
        check_attributes(new + name)?;
        let was_there = remove_from_file(&mut self.files, place, key);
        self.counted = self.counted - old + new;
        Ok(was_there)
    }
}

fn write_file(files: &mut Vec<File>, place: u32, bytes: Bytes)
    requires { place < length files.old.items }
    ensures { files.new.items ≡ change_at (written_file bytes) place files.old.items }
{
    let file = &mut files[place as usize];
    file.body = Body::New(bytes);
    file.written = true;
}

/// Bytes of the file's own grow in place; others are copied.
fn append_file(
    alloc: Global,
    sources: &[Source],
    files: &mut Vec<File>,
    place: u32,
    more: &[u8],
) -> Result<(), AllocError>
    requires there { place < length files.old.items }
    requires whole { All (λ source. HasItsSize source.bytes source.size) sources.now }
    requires inside { All (λ file. IsBodyOf sources.now file.body) files.old.items }
    ensures ok { OnOk result (files.new.items ≡ change_at
        (written_file (unwrap_or (bytes_in sources.now files.old.items place) [] ++ more.now)) place files.old.items) }
    ensures err { OnErr result (files.new.items ≡ files.old.items) }
{
    let file = &mut files[place as usize];
    extend_body(alloc, sources, &mut file.body, more)?;
    file.written = true;
    Ok(())
}

fn extend_body(
    alloc: Global,
    sources: &[Source],
    body: &mut Body,
    more: &[u8],
) -> Result<(), AllocError>
    requires whole { All (λ source. HasItsSize source.bytes source.size) sources.now }
    requires inside { IsBodyOf sources.now body.old }
    ensures ok { OnOk result (body.new ≡ Body.New (unwrap_or (body_bytes sources.now body.old) [] ++ more.now)) }
    ensures err { OnErr result (body.new ≡ body.old) }
{
    if let Body::New(bytes) = body {
        return bytes.extend_from_slice(more);
    }
    let old = body_bytes(sources, body).unwrap_or(&[]);
    let all = joined_bytes(alloc, old, more)?;
    *body = Body::New(all);
    Ok(())
}

fn put_in_file(files: &mut Vec<File>, place: u32, key: &str, value: &str) -> Result<(), AllocError>
    requires there { place < length files.old.items }
    requires key { IsTrue (has_key_length key.now && not (is_uuid key.now)) }
    requires size { encoded_size (insert (attributes_in files.old.items place) key.now value.now) ≤ ATTRIBUTES_MAX }
    ensures ok { OnOk result (files.new.items ≡ change_at
        (attributed_file (insert (attributes_in files.old.items place) key.now value.now)) place files.old.items) }
    ensures limits { OnOk result (IsWithinLimits (insert (attributes_in files.old.items place) key.now value.now)) }
    ensures err { OnErr result (files.new.items ≡ files.old.items) }
{
    let file = &mut files[place as usize];
    put_in(&mut file.attributes, key, value)?;
    Ok(())
}

fn put_in(attributes: &mut Attributes, key: &str, value: &str) -> Result<(), AllocError>
    requires key { IsTrue (has_key_length key.now && not (is_uuid key.now)) }
    requires size { encoded_size (insert attributes.old key.now value.now) ≤ ATTRIBUTES_MAX }
    ensures ok { OnOk result (attributes.new ≡ insert attributes.old key.now value.now) }
    ensures limits { OnOk result (IsWithinLimits attributes.new) }
    ensures err { OnErr result (attributes.new ≡ attributes.old) }
{
    attributes.store(key, value)?;
    let size = attributes.size();
    prove!(size <= ATTRIBUTES_MAX);
    Ok(())
}

fn remove_from_file(files: &mut Vec<File>, place: u32, key: &str) -> bool
    requires { place < length files.old.items }
    ensures was_there { result ≡ contains_key (attributes_in files.old.items place) key.now }
    ensures limits { IsWithinLimits (remove (attributes_in files.old.items place) key.now) }
    ensures after { files.new.items ≡ change_at
        (attributed_file (remove (attributes_in files.old.items place) key.now)) place files.old.items }
{
    let file = &mut files[place as usize];
    remove_from(&mut file.attributes, key)
}

fn remove_from(attributes: &mut Attributes, key: &str) -> bool
    ensures was_there { result ≡ contains_key attributes.old key.now }
    ensures limits { IsWithinLimits attributes.new }
    ensures after { attributes.new ≡ remove attributes.old key.now }
{
    let was_there = attributes.remove(key);
    let size = attributes.size();
    prove!(size <= ATTRIBUTES_MAX);
    was_there
}
