//! The file that a session took, passed on, cloned or routed.
ghost use Rattle.std.specs.Prelude.{◌≡◌, ◌∷◌, [], ◌<◌, ◌≤◌, ◌==◌, ◌||◌, false, length, map, true, All, None, OnOk};
ghost use Rattle.flowfile_record.specs.declared.worked.End.TheVariants.{To};
ghost use Rattle.machine_model.specs.declared.limits.TheConstants.{OWN_PROPERTIES_MAX};
ghost use Rattle.machine_model.specs.Making.{TakenFile, alone, clone_of, passed_on};
ghost use Rattle.machine_model.specs.RouteOnAttribute.{routed, routed_clone};
ghost use Rattle.process_session.specs.Bench.{bench_attributes, made_size};
ghost use Rattle.process_session.specs.Changes.{with_end, with_route};
ghost use Rattle.process_session.specs.Refusals.{refusal_of_clone};
ghost use Rattle.processor_api.specs.Sessions.{HasFirstTaken, BeganWithOne, EndsWith};
ghost use Rattle.processor_api.specs.Cloning.{may_be_cloned, with_ended};

use crate::{FILE, or_no_memory};
use flowfile_record::{ATTRIBUTES_MAX, Attributes};
use process_session::{FILENAME_SIZE, Session};
use std::alloc::AllocError;

/// The taken file, as it is, to a relationship.
pub fn pass(session: &mut Session, relationship: u16)
    requires one { BeganWithOne session.old }
    requires there { relationship < session.old.relationships }
    ensures { EndsWith session.old session.new
        (alone (passed_on FILE (bench_attributes session.old FILE) false relationship)) }
{
    session.transfer(FILE, relationship).unwrap();
}

/// The taken file to the relationship at the first of these places and a clone to each other one, or to `unmatched`.
pub fn route(session: &mut Session, unmatched: u16, places: &[u16]) -> Result<(), AllocError>
    requires one { BeganWithOne session.old }
    requires unmatched { unmatched < session.old.relationships }
    requires there { All (λ place. place < session.old.relationships) places.now }
    requires few { length places.now ≤ OWN_PROPERTIES_MAX }
    ensures { OnOk result ((file : TakenFile) → file.attributes ≡ bench_attributes session.old FILE
        → EndsWith session.old session.new (routed unmatched file places.now)) }
{
    let Some((first, others)) = places.split_first() else {
        route_taken(session, unmatched);
        return Ok(());
    };
    if may_be_routed(session, others) {
        add_routed_clones(session, others)?;
        route_taken(session, *first);
    } else {
        session.transfer(FILE, unmatched).unwrap();
    }
    Ok(())
}

/// Whether the taken file may have a clone for each of these. A session takes nothing back: that is known before the
/// first clone.
fn may_be_routed(session: &Session, others: &[u16]) -> bool
    requires { HasFirstTaken session.now }
    ensures { result ≡ ((length others.now == 0) || may_be_cloned session.now) }
{
    others.is_empty() || may_be_cloned(session)
}

/// Whether a clone of the taken file may have its attributes.
pub fn may_be_cloned(session: &Session) -> bool
    requires { HasFirstTaken session.now }
    ensures { result ≡ may_be_cloned session.now }
{
    let Some(attributes) = session.attributes(FILE) else {
        unreachable!()
    };
    made_size(attributes) <= ATTRIBUTES_MAX
}

/// What attributes take as a made file's: where they have no `filename`, one comes later.
fn made_size(attributes: &Attributes) -> u64
    ensures { result ≡ made_size attributes.now }
{
    let size = attributes.size();
    if attributes.get("filename").is_none() {
        size + FILENAME_SIZE
    } else {
        size
    }
}

/// One more clone of the taken file, which goes to a relationship.
pub fn add_clone(session: &mut Session, relationship: u16) -> Result<(), AllocError>
    requires taken { HasFirstTaken session.old }
    requires free { refusal_of_clone session.old FILE ≡ None }
    requires there { relationship < session.old.relationships }
    ensures { OnOk result (session.new ≡ with_ended session.old
        (clone_of FILE (bench_attributes session.old FILE) relationship ∷ [])) }
{
    let clone = or_no_memory(session.clone_file(FILE))?;
    session.transfer(clone, relationship).unwrap();
    Ok(())
}

/// A clone of the taken file to each of these relationships.
fn add_routed_clones(session: &mut Session, relationships: &[u16]) -> Result<(), AllocError>
    requires one { BeganWithOne session.old }
    requires there { All (λ relationship. relationship < session.old.relationships) relationships.now }
    requires few { length relationships.now ≤ OWN_PROPERTIES_MAX }
    requires may { 0 < length relationships.now → may_be_cloned session.old ≡ true }
    ensures { OnOk result (session.new ≡ with_ended session.old
        (map (routed_clone (bench_attributes session.old FILE)) relationships.now)) }
{
    for relationship in relationships {
        add_routed_clone(session, *relationship)?;
    }
    Ok(())
}

/// One more clone of the taken file, which is routed to a relationship and goes there.
fn add_routed_clone(session: &mut Session, relationship: u16) -> Result<(), AllocError>
    requires taken { HasFirstTaken session.old }
    requires free { refusal_of_clone session.old FILE ≡ None }
    requires there { relationship < session.old.relationships }
    ensures { OnOk result (session.new ≡ with_ended session.old
        (routed_clone (bench_attributes session.old FILE) relationship ∷ [])) }
{
    let clone = or_no_memory(session.clone_file(FILE))?;
    session.route(clone, relationship).unwrap();
    session.transfer(clone, relationship).unwrap();
    Ok(())
}

/// The taken file itself to a relationship.
fn route_taken(session: &mut Session, relationship: u16)
    requires taken { HasFirstTaken session.old }
    requires there { relationship < session.old.relationships }
    ensures { session.new ≡ with_end (with_route session.old FILE relationship) FILE (To relationship) }
{
    session.route(FILE, relationship).unwrap();
    session.transfer(FILE, relationship).unwrap();
}
