//! Files by what patterns find in their contents.
ghost use Rattle.std.specs.Prelude.{◌≡◌, ◌≤◌, length, IfOk, IfSome, is_some};
ghost use Rattle.machine_model.specs.declared.limits.TheConstants.{OWN_PROPERTIES_MAX};
ghost use Rattle.machine_model.specs.RouteOnAttribute.{places_where};
ghost use Rattle.machine_model.specs.RouteOnContent.{found_places};
ghost use Rattle.proc_text.specs.Finding.{finds};
ghost use Rattle.proc_text.specs.Kinds.{is_route_on_content};

use machine_model::{Kind, MatchRequirement, OwnPattern, OwnPatternList};
use process_session::Session;
use processor_api::{Acts, FILE, Given, TakeRule, route};
use simdutf8::basic::from_utf8;
use std::alloc::{AllocError, Global};

/// Sends the file that it took to each of its own relationships whose pattern finds something in the content: the file
/// itself to the first, and a clone to each other one. A file in which none finds anything goes to `unmatched`, and so
/// does one that isn't UTF-8, and, without being noted as routed, one that would need clones and may not be cloned.
#[derive(Clone, Copy)]
pub struct RouteOnContent<'k> {
    /// What the patterns were read for: one that has to match the whole content says so itself.
    pub requirement: MatchRequirement,
    /// The names of the relationships, each with its pattern.
    pub own: &'k OwnPatternList,
}

impl<'k> RouteOnContent<'k> {
    /// The processor of a kind, or `None` where the kind is another processor's.
    pub fn of(kind: &'k Kind) -> Option<RouteOnContent<'k>>
        ensures of { IfSome result (λ processor.
            Kind.RouteOnContent processor.requirement processor.own.now ≡ kind.now) }
        ensures other { is_some result ≡ is_route_on_content kind.now }
    {
        match kind {
            Kind::RouteOnContent { requirement, own } => Some(RouteOnContent {
                requirement: *requirement,
                own,
            }),
            _ => None,
        }
    }
}

impl Acts for RouteOnContent<'_> {
    ghost use Rattle.machine_model.specs.declared.kind.Kind.TheVariants.{RouteOnContent as OfRouteOnContent};

    ghost kind = { λ processor. OfRouteOnContent processor.requirement processor.own.now };

    fn takes(&self) -> TakeRule {
        TakeRule::One
    }

    fn act(
        &self,
        alloc: Global,
        session: &mut Session,
        _given: &mut Given,
    ) -> Result<(), AllocError> {
        let unmatched = self.own.len() as u16;
        let Ok(content) = session.content(FILE) else {
            unreachable!()
        };
        let places = found_places(alloc, content, self.own.as_slice())?;
        route(session, unmatched, places.as_slice())
    }
}

/// The places of the relationships whose patterns find something in a content, if it is UTF-8.
fn found_places(alloc: Global, content: &[u8], own: &[OwnPattern]) -> Result<Vec<u16>, AllocError>
    requires { length own.now ≤ OWN_PROPERTIES_MAX }
    ensures { IfOk result (λ places. places.items ≡ found_places content.now own.now) }
{
    match from_utf8(content) {
        Ok(text) => places_in(alloc, text, own),
        Err(_) => Ok(Vec::new(alloc)),
    }
}

/// The places of the relationships whose patterns find something in a text.
fn places_in(alloc: Global, text: &str, own: &[OwnPattern]) -> Result<Vec<u16>, AllocError>
    requires { length own.now ≤ OWN_PROPERTIES_MAX }
    ensures { IfOk result (λ places. places.items ≡ places_where (finds text.now) own.now) }
{
    let mut places = Vec::new(alloc);
    for (place, property) in own.iter().enumerate() {
        if finds(alloc, text, property)? {
            places.push(place as u16)?;
        }
    }
    Ok(places)
}

/// Whether a property's pattern finds something in a text.
fn finds(alloc: Global, text: &str, property: &OwnPattern) -> Result<bool, AllocError>
    ensures { IfOk result (λ found. found ≡ finds text.now property.now) }
{
    let mut matcher = property.pattern.regex.matcher(alloc)?;
    Ok(matcher.is_match(text))
}
