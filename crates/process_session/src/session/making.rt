//! How files are made. What refuses is tested before anything is copied, but for the attributes that parents share.
ghost use Rattle.std.specs.Prelude.{◌≡◌, [], ◌∷◌, ◌+◌, ◌<◌, ◌≤◌, ◌==◌, length, is_ok, true, IfOk, OnOk, All, if◌then◌else◌};
ghost use Rattle.std.specs.Result.{result_err};
ghost use Rattle.std.specs.List.{IsDistinct};
ghost use Rattle.flowfile_record.specs.Attributes.{encoded_size};
ghost use Rattle.process_session.specs.Bench.{IsBodyOf, attribute_size, bench_attributes, body_at, content_size, made_size};
ghost use Rattle.process_session.specs.Changes.{common_attributes, is_whole, body_part, with_handed, with_made, with_part, with_created, with_received, with_child, with_joined, with_clone, with_range};
ghost use Rattle.process_session.specs.Reasons.{IsRefusal, IsRefusalBehind, already_ended, attributes_too_large, first_refusal, no_room_for, range_outside, unknown_file};
ghost use Rattle.process_session.specs.Refusals.{unknown_files, ended_refusal, refusal_of_create, refusal_of_receive, refusal_of_create_from, refusal_of_parents, refusal_of_create_joined, refusal_of_clone, refusal_of_clone_range};
ghost use Rattle.process_session.specs.Sound.{MayCome, MayInherit};

use super::Session;
use super::bodies::{body_size, copy_body, part_of_body};
use super::checks::{check_attributes, check_content};
use super::sizes::made_size;
use crate::file::File;
use crate::{FILES_MAX, SESSION_ATTRIBUTES_MAX, SessionError, WRITTEN_MAX};
use flowfile_record::{ATTRIBUTES_MAX, Attributes, Body, Bytes, Numbers, Origin};
use std::alloc::{AllocError, Global};

impl Session {
    /// Makes a file from nothing, with no attributes and an empty content.
    pub fn create(&mut self) -> Result<u32, SessionError>
        ensures refusal { IsRefusal result (refusal_of_create self.old) }
        ensures place { IfOk result (λ place. place ≡ length self.old.files) }
        ensures after { self.new ≡ (if is_ok result then with_created self.old else self.old) }
    {
        let attributes = Attributes::new(self.alloc);
        self.check_one_more(attributes.size(), 0)?;
        let place = self.add_empty(Origin::Created, attributes)?;
        Ok(place)
    }

    /// Makes a file with a content that was received from outside.
    pub fn receive(&mut self, bytes: Vec<u8>) -> Result<u32, SessionError>
        ensures refusal { IsRefusal result (refusal_of_receive self.old bytes.items) }
        ensures place { IfOk result (λ place. place ≡ length self.old.files) }
        ensures after { self.new ≡ (if is_ok result then with_received self.old bytes.items else self.old) }
    {
        let size = bytes.len() as u64;
        check_content(size)?;
        let attributes = Attributes::new(self.alloc);
        self.check_one_more(attributes.size(), size)?;
        let body = Body::New(Bytes::from(bytes));
        let place = self.add_handed(Origin::Received, attributes, body, size)?;
        Ok(place)
    }

    /// Makes a child with its parent's attributes and an empty content.
    pub fn create_from(&mut self, parent: u32) -> Result<u32, SessionError>
        ensures refusal { IsRefusal result (refusal_of_create_from self.old parent) }
        ensures place { IfOk result (λ place. place ≡ length self.old.files) }
        ensures after { self.new ≡ (if is_ok result then with_child self.old parent else self.old) }
    {
        self.check_child(parent)?;
        let place = self.add_child(parent)?;
        Ok(place)
    }

    /// Makes a child of several parents with the attributes that all of them have, and an empty content. Their common
    /// attributes are copied before it is known how large they are: memory may run out in place of what their size
    /// refuses.
    pub fn create_joined(&mut self, parents: &[u32]) -> Result<u32, SessionError>
        requires some { 0 < length parents.now }
        requires distinct { IsDistinct (λ a b. a == b) parents.now }
        ensures refusal { IsRefusalBehind (refusal_of_parents self.old parents.now) result
            (refusal_of_create_joined self.old parents.now) }
        ensures place { IfOk result (λ place. place ≡ length self.old.files) }
        ensures after { self.new ≡ (if is_ok result then with_joined self.old parents.now else self.old) }
    {
        self.check_all_known(parents)?;
        self.check_all_open(parents)?;
        let attributes = self.common_attributes(parents)?;
        check_attributes(made_size(&attributes))?;
        self.check_one_more(attributes.size(), 0)?;
        let numbers = numbers_of(self.alloc, parents)?;
        let place = self.add_empty(Origin::Joined(numbers), attributes)?;
        Ok(place)
    }

    /// Makes a copy of a file as it is now.
    pub fn clone_file(&mut self, of: u32) -> Result<u32, SessionError>
        ensures refusal { IsRefusal result (refusal_of_clone self.old of) }
        ensures place { IfOk result (λ place. place ≡ length self.old.files) }
        ensures after { self.new ≡ (if is_ok result then with_clone self.old of else self.old) }
    {
        self.check_child(of)?;
        let place = self.add_clone(of)?;
        Ok(place)
    }

    /// Makes a child whose content is a part of a file's, or a copy of the file where the part is the whole. The part
    /// of a taken content is a reference to it.
    pub fn clone_range(&mut self, of: u32, offset: u64, size: u64) -> Result<u32, SessionError>
        ensures refusal { IsRefusal result (refusal_of_clone_range self.old of offset size) }
        ensures place { IfOk result (λ place. place ≡ length self.old.files) }
        ensures after { self.new ≡ (if is_ok result then with_range self.old of offset size else self.old) }
    {
        self.check_part(of, offset, size)?;
        let place = self.add_range(of, offset, size)?;
        Ok(place)
    }

    /// Whether a file can be made from another, with its attributes.
    #[tactic(auto, using(crate::proofs::Refusing::steps))]
    fn check_child(&self, of: u32) -> Result<(), SessionError>
        ensures refusal { result_err result ≡ first_refusal (unknown_file self.now of ∷ already_ended self.now of ∷
            attributes_too_large (made_size (bench_attributes self.now of)) ∷
            no_room_for self.now (encoded_size (bench_attributes self.now of)) 0 ∷ []) }
        ensures may { OnOk result (MayInherit self.now of) }
    {
        self.check_known(of)?;
        self.check_open(of)?;
        self.check_inherited(of)?;
        self.check_heir(of)?;
        Ok(())
    }

    /// Whether a file can be made from a part of another, with its attributes.
    #[tactic(auto, using(crate::proofs::Refusing::steps))]
    fn check_part(&self, of: u32, offset: u64, size: u64) -> Result<(), SessionError>
        ensures refusal { result_err result ≡ first_refusal (unknown_file self.now of ∷ already_ended self.now of ∷
            range_outside self.now of offset size ∷
            attributes_too_large (made_size (bench_attributes self.now of)) ∷
            no_room_for self.now (encoded_size (bench_attributes self.now of)) 0 ∷ []) }
        ensures may { OnOk result (MayInherit self.now of) }
        ensures inside { OnOk result (offset + size ≤ content_size self.now of) }
    {
        self.check_known(of)?;
        self.check_open(of)?;
        self.check_range(of, offset, size)?;
        self.check_inherited(of)?;
        self.check_heir(of)?;
        Ok(())
    }

    /// Whether a made file can have a parent's attributes.
    fn check_inherited(&self, parent: u32) -> Result<(), SessionError>
        requires { parent < length self.now.files }
        ensures refusal { result_err result ≡ attributes_too_large (made_size (bench_attributes self.now parent)) }
        ensures named { OnOk result (made_size (bench_attributes self.now parent) ≤ ATTRIBUTES_MAX) }
    {
        check_attributes(made_size(self.attributes_of(parent)))
    }

    /// Whether one more file may come with a parent's attributes.
    fn check_heir(&self, parent: u32) -> Result<(), SessionError>
        requires { parent < length self.now.files }
        ensures refusal { result_err result ≡ no_room_for self.now (encoded_size (bench_attributes self.now parent)) 0 }
        ensures files { OnOk result (length self.now.files + 1 ≤ FILES_MAX) }
        ensures summed { OnOk result (attribute_size self.now + encoded_size
            (bench_attributes self.now parent) ≤ SESSION_ATTRIBUTES_MAX) }
        ensures room { OnOk result (self.now.handed + 0 ≤ WRITTEN_MAX) }
    {
        self.check_one_more(self.size_at(parent), 0)
    }

    fn attributes_of(&self, place: u32) -> &Attributes
        requires { place < length self.now.files }
        ensures { result.now ≡ bench_attributes self.now place }
    {
        &self.files[place as usize].attributes
    }

    fn copy_attributes(&self, parent: u32) -> Result<Attributes, AllocError>
        requires { parent < length self.now.files }
        ensures { IfOk result (λ copy. copy ≡ bench_attributes self.now parent) }
    {
        self.attributes_of(parent).copy()
    }

    #[tactic(auto, unfolding(crate::specs::Reasons::range_outside))]
    fn check_range(&self, of: u32, offset: u64, size: u64) -> Result<(), SessionError>
        requires { of < length self.now.files }
        ensures refusal { result_err result ≡ range_outside self.now of offset size }
        ensures inside { OnOk result (offset + size ≤ content_size self.now of) }
    {
        let whole = body_size(&self.sources, &self.files[of as usize].body);
        let end = u128::from(offset) + u128::from(size);
        if end > u128::from(whole) {
            return Err(SessionError::RangeOutside { end, size: whole });
        }
        Ok(())
    }

    fn is_whole(&self, of: u32, offset: u64, size: u64) -> bool
        requires { of < length self.now.files }
        ensures { result ≡ is_whole self.now of offset size }
    {
        offset == 0 && size == body_size(&self.sources, &self.files[of as usize].body)
    }

    fn check_all_known(&self, places: &[u32]) -> Result<(), SessionError>
        ensures refusal { result_err result ≡ unknown_files self.now places.now }
        ensures there { OnOk result (All (λ place. place < length self.now.files) places.now) }
    {
        for place in places {
            self.check_known(*place)?;
        }
        Ok(())
    }

    fn check_all_open(&self, places: &[u32]) -> Result<(), SessionError>
        requires { All (λ place. place < length self.now.files) places.now }
        ensures refusal { result_err result ≡ ended_refusal self.now places.now }
    {
        for place in places {
            self.check_open(*place)?;
        }
        Ok(())
    }

    fn common_attributes(&self, parents: &[u32]) -> Result<Attributes, AllocError>
        requires some { 0 < length parents.now }
        requires there { All (λ parent. parent < length self.now.files) parents.now }
        ensures { IfOk result (λ common. common ≡ common_attributes self.now parents.now) }
    {
        let more = &parents[1..];
        let mut common = self.copy_attributes(parents[0])?;
        for parent in more {
            common.keep_shared(self.attributes_of(*parent));
        }
        Ok(common)
    }

    /// One more file, a child of another with its attributes.
    fn add_child(&mut self, parent: u32) -> Result<u32, AllocError>
        requires { MayInherit self.old parent }
        ensures place { IfOk result (λ place. place ≡ length self.old.files) }
        ensures after { self.new ≡ (if is_ok result then with_child self.old parent else self.old) }
    {
        let attributes = self.copy_attributes(parent)?;
        self.add_empty(Origin::Forked(parent), attributes)
    }

    /// One more file, a copy of another.
    fn add_clone(&mut self, of: u32) -> Result<u32, AllocError>
        requires { MayInherit self.old of }
        ensures place { IfOk result (λ place. place ≡ length self.old.files) }
        ensures after { self.new ≡ (if is_ok result then with_clone self.old of else self.old) }
    {
        let attributes = self.copy_attributes(of)?;
        let body = self.copy_content(of)?;
        self.add(Origin::Cloned(of), attributes, body)
    }

    /// One more file, a child with a part of another's content, or its copy where that is the whole.
    fn add_range(&mut self, of: u32, offset: u64, size: u64) -> Result<u32, AllocError>
        requires may { MayInherit self.old of }
        requires inside { offset + size ≤ content_size self.old of }
        ensures place { IfOk result (λ place. place ≡ length self.old.files) }
        ensures after { self.new ≡ (if is_ok result then with_range self.old of offset size else self.old) }
    {
        if self.is_whole(of, offset, size) {
            self.add_clone(of)
        } else {
            self.add_part(of, offset, size)
        }
    }

    /// One more file, a child with a part of another's content.
    fn add_part(&mut self, of: u32, offset: u64, size: u64) -> Result<u32, AllocError>
        requires may { MayInherit self.old of }
        requires inside { offset + size ≤ content_size self.old of }
        ensures place { IfOk result (λ place. place ≡ length self.old.files) }
        ensures after { self.new ≡ (if is_ok result then with_part self.old of offset size else self.old) }
    {
        let attributes = self.copy_attributes(of)?;
        let body = self.part_of(of, offset, size)?;
        self.add(Origin::Part(of), attributes, body)
    }

    /// A copy of a file's content.
    fn copy_content(&self, of: u32) -> Result<Body, AllocError>
        requires { of < length self.now.files }
        ensures copy { IfOk result (λ copy. copy ≡ body_at self.now of) }
        ensures inside { IfOk result (IsBodyOf self.now.sources) }
    {
        let file = &self.files[of as usize];
        copy_body(self.alloc, &self.sources, &file.body)
    }

    /// A part of a file's content.
    fn part_of(&self, of: u32, offset: u64, size: u64) -> Result<Body, AllocError>
        requires there { of < length self.now.files }
        requires inside { offset + size ≤ content_size self.now of }
        ensures part { IfOk result (λ part. part ≡ body_part (body_at self.now of) offset size) }
        ensures inside { IfOk result (IsBodyOf self.now.sources) }
    {
        let file = &self.files[of as usize];
        part_of_body(self.alloc, &self.sources, &file.body, offset, size)
    }

    /// One more file, with an empty content.
    fn add_empty(&mut self, origin: Origin, attributes: Attributes) -> Result<u32, AllocError>
        requires { MayCome self.old origin attributes (Body.New []) 0 }
        ensures place { IfOk result (λ place. place ≡ length self.old.files) }
        ensures after { self.new ≡ (if is_ok result then with_made self.old origin attributes (Body.New [])
            else self.old) }
    {
        let bytes = Bytes::new(self.alloc);
        self.add(origin, attributes, Body::New(bytes))
    }

    /// One more file, at the end.
    fn add(&mut self, origin: Origin, attributes: Attributes, body: Body) -> Result<u32, AllocError>
        requires { MayCome self.old origin attributes body 0 }
        ensures place { IfOk result (λ place. place ≡ length self.old.files) }
        ensures after { self.new ≡ (if is_ok result then with_made self.old origin attributes body else self.old) }
    {
        self.add_handed(origin, attributes, body, 0)
    }

    /// One more file, at the end, with so many bytes that were handed over. What refuses it was tested before: memory
    /// alone may run out.
    fn add_handed(
        &mut self,
        origin: Origin,
        attributes: Attributes,
        body: Body,
        handed: u64,
    ) -> Result<u32, AllocError>
        requires { MayCome self.old origin attributes body handed }
        ensures place { IfOk result (λ place. place ≡ length self.old.files) }
        ensures after { self.new ≡ (if is_ok result then with_handed (with_made self.old origin attributes body) handed
            else self.old) }
    {
        let place = self.files.len() as u32;
        let size = attributes.size();
        self.files.push(File {
            origin,
            attributes,
            body,
            end: None,
            written: false,
            penalised: false,
            routed: None,
        })?;
        self.counted += size;
        self.handed += handed;
        Ok(place)
    }
}

pub(super) fn numbers_of(alloc: Global, places: &[u32]) -> Result<Numbers, AllocError>
    ensures { IfOk result (λ numbers. numbers ≡ places.now) }
{
    let mut numbers = Numbers::new(alloc);
    for place in places {
        numbers.push(u64::from(*place))?;
    }
    Ok(numbers)
}
