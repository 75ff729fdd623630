//! The reasons to refuse, each tested by itself.
ghost use Rattle.std.specs.Prelude.{◌≡◌, [], false, ◌+◌, ◌-◌, ◌<◌, ◌≤◌, ◌^◌, length, unwrap_or, IfOk, IsTrue, OnOk};
ghost use Rattle.std.specs.Result.{result_err};
ghost use Rattle.flowfile_record.specs.Attributes.{has_key_length};
ghost use Rattle.flowfile_record.specs.Outcome.{is_made};
ghost use Rattle.process_session.specs.Bench.{attribute_size, bench_bytes, content_size, origin_at};
ghost use Rattle.process_session.specs.Reasons.{unknown_file, already_ended, no_relationship, made_here, no_bytes, content_too_large, bad_key, attributes_too_large, already_sent, no_room_for, past_limits};

use super::Session;
use super::bodies::body_bytes;
use crate::{FILES_MAX, Full, SESSION_ATTRIBUTES_MAX, SessionError, WRITTEN_MAX};
use flowfile_record::{ATTRIBUTES_MAX, CONTENT_MAX, KEY_MAX, Origin};

impl Session {
    #[tactic(auto, unfolding(crate::specs::Reasons::unknown_file))]
    pub(super) fn check_known(&self, place: u32) -> Result<(), SessionError>
        ensures refusal { result_err result ≡ unknown_file self.now place }
        ensures there { OnOk result (place < length self.now.files) }
    {
        if place as usize >= self.files.len() {
            return Err(SessionError::UnknownFile);
        }
        Ok(())
    }

    #[tactic(auto, unfolding(crate::specs::Reasons::already_ended))]
    pub(super) fn check_open(&self, place: u32) -> Result<(), SessionError>
        requires { place < length self.now.files }
        ensures refusal { result_err result ≡ already_ended self.now place }
    {
        if self.files[place as usize].end.is_some() {
            return Err(SessionError::AlreadyEnded);
        }
        Ok(())
    }

    #[tactic(auto, unfolding(crate::specs::Reasons::no_relationship))]
    pub(super) fn check_relationship(&self, relationship: u16) -> Result<(), SessionError>
        ensures refusal { result_err result ≡ no_relationship self.now relationship }
        ensures below { OnOk result (relationship < self.now.relationships) }
    {
        if relationship >= self.relationships {
            return Err(SessionError::NoRelationship);
        }
        Ok(())
    }

    #[tactic(auto, unfolding(crate::specs::Reasons::made_here))]
    pub(super) fn check_taken(&self, place: u32) -> Result<(), SessionError>
        requires { place < length self.now.files }
        ensures refusal { result_err result ≡ made_here self.now place }
        ensures taken { OnOk result (is_made (origin_at self.now place) ≡ false) }
    {
        match self.files[place as usize].origin {
            Origin::Taken(_) => Ok(()),
            _ => Err(SessionError::MadeHere),
        }
    }

    #[tactic(auto, unfolding(crate::specs::Reasons::already_sent))]
    pub(super) fn check_unsent(&self) -> Result<(), SessionError>
        ensures refusal { result_err result ≡ already_sent self.now }
    {
        if self.sent.is_some() {
            return Err(SessionError::AlreadySent);
        }
        Ok(())
    }

    /// Whether one more file may come, with attributes that take so much and so many handed bytes.
    pub(super) fn check_one_more(&self, size: u64, handed: u64) -> Result<(), SessionError>
        requires size { size ≤ ATTRIBUTES_MAX }
        requires handed { handed ≤ CONTENT_MAX }
        ensures refusal { result_err result ≡ no_room_for self.now size handed }
        ensures files { OnOk result (length self.now.files + 1 ≤ FILES_MAX) }
        ensures attributes { OnOk result (attribute_size self.now + size ≤ SESSION_ATTRIBUTES_MAX) }
        ensures handed { OnOk result (self.now.handed + handed ≤ WRITTEN_MAX) }
    {
        check_room(
            self.files.len() as u64 + 1,
            self.counted + size,
            self.handed + handed,
        )
    }

    /// Whether attributes that take so much may take as much as this.
    pub(super) fn check_attribute_room(&self, old: u64, new: u64) -> Result<(), SessionError>
        requires old { old ≤ attribute_size self.now }
        requires new { new ≤ ATTRIBUTES_MAX }
        ensures refusal { result_err result ≡ past_limits (length self.now.files)
            (attribute_size self.now - old + new) self.now.handed }
        ensures attributes { OnOk result (attribute_size self.now - old + new ≤ SESSION_ATTRIBUTES_MAX) }
    {
        check_room(
            self.files.len() as u64,
            self.counted - old + new,
            self.handed,
        )
    }

    /// Whether so many more bytes may be written.
    pub(super) fn check_written(&self, size: u64) -> Result<(), SessionError>
        requires { size ≤ CONTENT_MAX }
        ensures refusal { result_err result ≡ past_limits (length self.now.files) (attribute_size self.now)
            (self.now.handed + size) }
        ensures handed { OnOk result (self.now.handed + size ≤ WRITTEN_MAX) }
    {
        check_room(self.files.len() as u64, self.counted, self.handed + size)
    }

    /// The size of the content, which has to be there.
    #[tactic(auto, unfolding(crate::specs::Reasons::no_bytes))]
    pub(super) fn check_bytes(&self, place: u32) -> Result<u64, SessionError>
        requires { place < length self.now.files }
        ensures refusal { result_err result ≡ no_bytes self.now place }
        ensures size { IfOk result (λ size. size ≡ content_size self.now place) }
        ensures length { IfOk result (λ size. size ≡ length (unwrap_or (bench_bytes self.now place) [])) }
        ensures small { IfOk result (λ size. size < 2 ^ 63) }
    {
        match body_bytes(&self.sources, &self.files[place as usize].body) {
            Some(bytes) => Ok(bytes.len() as u64),
            None => Err(SessionError::NoBytes),
        }
    }
}

#[tactic(auto, unfolding(crate::specs::Reasons::content_too_large))]
pub(super) fn check_content(size: u64) -> Result<(), SessionError>
    ensures refusal { result_err result ≡ content_too_large size }
    ensures fits { OnOk result (size ≤ CONTENT_MAX) }
{
    if size > CONTENT_MAX {
        return Err(SessionError::ContentTooLarge { size });
    }
    Ok(())
}

#[tactic(auto, unfolding(crate::specs::Reasons::bad_key))]
pub(super) fn check_key(key: &str) -> Result<(), SessionError>
    ensures refusal { result_err result ≡ bad_key key.now }
    ensures fits { OnOk result (length key.now ≤ KEY_MAX) }
    ensures has_length { OnOk result (IsTrue (has_key_length key.now)) }
{
    if key.is_empty() || key.len() as u64 > KEY_MAX {
        return Err(SessionError::BadKey);
    }
    Ok(())
}

#[tactic(auto, unfolding(crate::specs::Reasons::attributes_too_large))]
pub(super) fn check_attributes(size: u64) -> Result<(), SessionError>
    ensures refusal { result_err result ≡ attributes_too_large size }
    ensures fits { OnOk result (size ≤ ATTRIBUTES_MAX) }
{
    if size > ATTRIBUTES_MAX {
        return Err(SessionError::AttributesTooLarge { size });
    }
    Ok(())
}

/// Whether a session may come to so many files, bytes of attributes and handed bytes.
#[tactic(auto, unfolding(crate::specs::Reasons::past_limits))]
fn check_room(files: u64, attributes: u64, handed: u64) -> Result<(), SessionError>
    ensures refusal { result_err result ≡ past_limits files attributes handed }
    ensures files { OnOk result (files ≤ FILES_MAX) }
    ensures attributes { OnOk result (attributes ≤ SESSION_ATTRIBUTES_MAX) }
    ensures handed { OnOk result (handed ≤ WRITTEN_MAX) }
{
    let (which, number) = if files > FILES_MAX {
        (Full::Files, FILES_MAX)
    } else if attributes > SESSION_ATTRIBUTES_MAX {
        (Full::Attributes, SESSION_ATTRIBUTES_MAX)
    } else if handed > WRITTEN_MAX {
        (Full::Written, WRITTEN_MAX)
    } else {
        return Ok(());
    };
    Err(SessionError::SessionFull { which, number })
}
