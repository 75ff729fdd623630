//! How much a template writes at a match.
ghost use Rattle.std.specs.Prelude.{◌≡◌, ◌-◌, ◌<◌, ◌≤◌, ◌==◌, not, length, drop, slice_index, ◌++◌, IfOk, IfSome, OnOk, IsTrue, option_map, option_to_list};
ghost use Rattle.std.specs.List.{prefix_len};
ghost use Rattle.regex.specs.Strings.{regex_names};
ghost use Rattle.regex.specs.Templates.{group_called, is_name_byte, name_at};
ghost use Rattle.proc_text.specs.Shapes.{IsFrontOf, IsShapeOf};

use regex::Regex;
use std::alloc::{AllocError, Global};
use std::str;

/// What a template writes at each match: so many bytes of its own, and what each of these groups matched there.
#[derive(Drop)]
pub(crate) struct Shape {
    pub(crate) own: usize,
    pub(crate) groups: Vec<usize>,
}

/// What the front of a template writes, of so many bytes: bytes of its own, or what a group matched.
#[derive(Clone, Copy)]
pub(crate) struct Front {
    pub(crate) own: usize,
    pub(crate) group: Option<usize>,
    pub(crate) len: usize,
}

/// What a template writes at each match of a pattern.
pub(crate) fn shape_of(alloc: Global, regex: &Regex, template: &str) -> Result<Shape, AllocError>
    ensures { IfOk result (IsShapeOf (regex_names regex.now) template.now) }
{
    let mut own = 0;
    let mut groups = Vec::new(alloc);
    let mut rest = template.as_bytes();
    'fronts: while !rest.is_empty() {
        let front = front_of(regex, rest);
        push_group(&mut groups, front.group)?;
        own += front.own;
        rest = after(rest, front.len);
    }
    Ok(Shape { own, groups })
}

fn push_group(groups: &mut Vec<usize>, group: Option<usize>) -> Result<(), AllocError>
    ensures { OnOk result (groups.new.items ≡ groups.old.items ++ option_to_list group) }
{
    match group {
        Some(group) => {
            groups.push(group)?;
            Ok(())
        }
        None => Ok(()),
    }
}

/// The front of a template: a byte that stands for itself, two dollar signs, or a reference to a group.
fn front_of(regex: &Regex, template: &[u8]) -> Front
    requires { 0 < length template.now }
    ensures front { IsFrontOf (regex_names regex.now) template.now result }
    ensures own { result.own ≤ result.len }
    ensures some { 0 < result.len }
    ensures within { result.len ≤ length template.now }
{
    if template[0] != b'$' {
        return bytes_at(1);
    }
    let rest = after(template, 1);
    if begins_with(rest, b'$') {
        return bytes_at(2);
    }
    match name_at(rest) {
        Some((name, len)) => Front {
            own: 0,
            group: group_called(regex, name),
            len: len + 1,
        },
        None => bytes_at(1),
    }
}

/// So many bytes that write one.
fn bytes_at(len: usize) -> Front
    ensures { result ≡ record { own = 1; group = None; len = len } }
{
    Front {
        own: 1,
        group: None,
        len,
    }
}

/// What follows the first `count` bytes.
fn after(bytes: &[u8], count: usize) -> &[u8]
    requires { count ≤ length bytes.now }
    ensures { result.now ≡ drop count bytes.now }
{
    &bytes[count..]
}

fn begins_with(bytes: &[u8], first: u8) -> bool
    requires { 0 < first }
    ensures value { result ≡ (slice_index bytes.now 0 == first) }
    ensures len { IsTrue result → 0 < length bytes.now }
{
    !bytes.is_empty() && bytes[0] == first
}

/// How many bytes at the front can be part of a name.
fn name_len(bytes: &[u8]) -> usize
    ensures { result ≡ prefix_len is_name_byte bytes.now }
{
    for i in 0..bytes.len() {
        if !(bytes[i].is_ascii_alphanumeric() || bytes[i] == b'_') {
            return i;
        }
    }
    bytes.len()
}

/// How many bytes stand before the closing brace.
fn len_in_braces(bytes: &[u8]) -> usize
    ensures { result ≡ prefix_len (λ b. not (b == 125)) bytes.now }
{
    for i in 0..bytes.len() {
        if bytes[i] == b'}' {
            return i;
        }
    }
    bytes.len()
}

/// The name in the reference that follows a dollar sign, and the length of the reference.
fn name_at(rest: &[u8]) -> Option<(&str, usize)>
    ensures value { option_map (λ found. (found.0.now, found.1)) result ≡ name_at rest.now }
    ensures end { IfSome result (λ found. (0 < found.1) × (found.1 ≤ length rest.now)) }
{
    if begins_with(rest, b'{') {
        let inside = after(rest, 1);
        let len = len_in_braces(inside);
        if len >= inside.len() {
            return None;
        }
        let Ok(name) = str::from_utf8(&inside[..len]) else {
            return None;
        };
        return Some((name, len + 2));
    }
    let len = name_len(rest);
    if len == 0 {
        return None;
    }
    let Ok(name) = str::from_utf8(&rest[..len]) else {
        return None;
    };
    Some((name, len))
}

/// The group that a name in a template refers to: that of its number, or of its name.
fn group_called(regex: &Regex, name: &str) -> Option<usize>
    ensures { result ≡ group_called (regex_names regex.now) name.now }
{
    match name.parse::<usize>() {
        Ok(number) => Some(number),
        Err(_) => regex.capture_index(name),
    }
}
