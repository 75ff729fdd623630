//! Files by what expressions over their attributes are worth.
ghost use Rattle.std.specs.Prelude.{◌≡◌, ◌≤◌, length, IfOk, IfSome, is_some};
ghost use Rattle.machine_model.specs.declared.limits.TheConstants.{OWN_PROPERTIES_MAX};
ghost use Rattle.machine_model.specs.RouteOnAttribute.{is_true_of, true_places};
ghost use Rattle.processor_api.specs.Sessions.{BeganWithOne};
ghost use Rattle.proc_attribute.specs.Kinds.{is_route_on_attribute};
ghost use Rattle.proc_attribute.specs.Routing.{found_of};

use crate::taken::Taken;
use expr_lang::{EvalError, Subject, value};
use machine_model::{Kind, OwnExpression, OwnExpressionList};
use process_session::Session;
use processor_api::{Acts, FILE, Given, TakeRule, route};
use std::alloc::{AllocError, Global};

/// Sends the file that it took to each of its own relationships whose expression is true over the file: the file
/// itself to the first, and a clone to each other one. A file for which none is true goes to `unmatched`, and so does,
/// without being noted as routed, one that would need clones and may not be cloned.
#[derive(Clone, Copy)]
pub struct RouteOnAttribute<'k> {
    /// The names of the relationships, each with its expression.
    pub own: &'k OwnExpressionList,
}

impl<'k> RouteOnAttribute<'k> {
    /// The processor of a kind, or `None` where the kind is another processor's.
    pub fn of(kind: &'k Kind) -> Option<RouteOnAttribute<'k>>
        ensures of { IfSome result (λ processor. Kind.RouteOnAttribute processor.own.now ≡ kind.now) }
        ensures other { is_some result ≡ is_route_on_attribute kind.now }
    {
        match kind {
            Kind::RouteOnAttribute { own } => Some(RouteOnAttribute { own }),
            _ => None,
        }
    }
}

impl Acts for RouteOnAttribute<'_> {
    ghost use Rattle.machine_model.specs.declared.kind.Kind.TheVariants.{RouteOnAttribute as OfRouteOnAttribute};

    ghost kind = { λ processor. OfRouteOnAttribute processor.own.now };

    fn takes(&self) -> TakeRule {
        TakeRule::One
    }

    fn act(
        &self,
        alloc: Global,
        session: &mut Session,
        _given: &mut Given,
    ) -> Result<(), AllocError> {
        let unmatched = self.own.len() as u16;
        let places = places_over(alloc, session, self.own.as_slice())?;
        route(session, unmatched, places.as_slice())
    }
}

/// The places of the relationships whose expressions are true over the taken file.
fn places_over(
    alloc: Global,
    session: &Session,
    own: &[OwnExpression],
) -> Result<Vec<u16>, AllocError>
    requires one { BeganWithOne session.now }
    requires few { length own.now ≤ OWN_PROPERTIES_MAX }
    ensures { IfOk result (λ places. places.items ≡ true_places (found_of session.now) own.now) }
{
    let (Some(attributes), Some(uuid)) = (session.attributes(FILE), session.uuid(FILE)) else {
        unreachable!()
    };
    true_places(alloc, own, &Taken { attributes, uuid })
}

/// The places of the relationships whose expressions are true.
fn true_places<S: Subject>(
    alloc: Global,
    own: &[OwnExpression],
    subject: &S,
) -> Result<Vec<u16>, AllocError>
    requires { length own.now ≤ OWN_PROPERTIES_MAX }
    ensures { IfOk result (λ places. places.items ≡ true_places (S.attributes subject.now) own.now) }
{
    let mut places = Vec::new(alloc);
    for (place, property) in own.iter().enumerate() {
        if is_true(alloc, property, subject)? {
            places.push(place as u16)?;
        }
    }
    Ok(places)
}

/// Whether a relationship's expression is worth the truth value true. One without a value isn't.
fn is_true<S: Subject>(
    alloc: Global,
    property: &OwnExpression,
    subject: &S,
) -> Result<bool, AllocError>
    ensures { IfOk result (λ truth. truth ≡ is_true_of (S.attributes subject.now) property.now) }
{
    match value(alloc, &property.expression, subject) {
        Ok(value) => Ok(value.truth().unwrap_or(false)),
        Err(EvalError::Memory) => Err(AllocError),
        Err(_) => Ok(false),
    }
}
