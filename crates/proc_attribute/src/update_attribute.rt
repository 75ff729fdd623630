//! Attributes that are set.
ghost use Rattle.std.specs.Prelude.{◌≡◌, [], IfOk, IfSome, IsTrue, OnOk, is_some, map, string_bytes};
ghost use Rattle.std.specs.Option.{option_map};
ghost use Rattle.flowfile_record.specs.declared.worked.Origin.TheVariants.{Taken as FromQueue};
ghost use Rattle.expr_lang.specs.Meaning.{tree_value};
ghost use Rattle.expr_lang.specs.View.{tree_of};
ghost use Rattle.machine_model.specs.Making.{found_in, with_all_set};
ghost use Rattle.machine_model.specs.UpdateAttribute.{own_texts, text_in};
ghost use Rattle.process_session.specs.Bench.{bench_attributes};
ghost use Rattle.process_session.specs.Changes.{with_attributes};
ghost use Rattle.processor_api.specs.Sessions.{TookOne, EndsWith};
ghost use Rattle.proc_attribute.specs.Kinds.{is_update_attribute};
ghost use Rattle.proc_attribute.specs.Passing.{passed_with};
ghost use Rattle.proc_attribute.specs.Setting.{have_keys, set_by};

use crate::passing::pass;
use crate::taken::{Taken, file_of};
use crate::{FAILURE, SUCCESS};
use expr_lang::{EvalError, Expr, value};
use flowfile_record::{AttrError, Attributes};
use machine_model::{Kind, OwnExpression, OwnExpressionList};
use process_session::Session;
use processor_api::{Acts, FILE, Given, TakeRule, or_no_memory};
use std::alloc::{AllocError, Global};

/// Sets attributes to what its own properties are worth over the attributes as they came.
#[derive(Clone, Copy)]
pub struct UpdateAttribute<'k> {
    pub own: &'k OwnExpressionList,
}

impl<'k> UpdateAttribute<'k> {
    /// The processor of a kind, or `None` where the kind is another processor's.
    pub fn of(kind: &'k Kind) -> Option<UpdateAttribute<'k>>
        ensures of { IfSome result (λ processor. Kind.UpdateAttribute processor.own.now ≡ kind.now) }
        ensures other { is_some result ≡ is_update_attribute kind.now }
    {
        match kind {
            Kind::UpdateAttribute { own } => Some(UpdateAttribute { own }),
            _ => None,
        }
    }
}

impl Acts for UpdateAttribute<'_> {
    ghost use Rattle.machine_model.specs.declared.kind.Kind.TheVariants.{UpdateAttribute as OfUpdateAttribute};

    ghost kind = { λ processor. OfUpdateAttribute processor.own.now };

    fn takes(&self) -> TakeRule {
        TakeRule::One
    }

    fn act(
        &self,
        alloc: Global,
        session: &mut Session,
        _given: &mut Given,
    ) -> Result<(), AllocError> {
        let file = file_of(session);
        match settings_over(alloc, self.own.as_slice(), &file)? {
            Some(settings) => set_if_fit(session, &settings),
            None => {
                pass(session, FAILURE);
                Ok(())
            }
        }
    }
}

/// An attribute's name and the text that it is set to.
#[derive(Drop)]
struct Setting<'k> {
    name: &'k str,
    text: String,
}

/// The names of own properties with the texts that they are worth, where each is worth one.
fn settings_over<'k>(
    alloc: Global,
    own: &'k [OwnExpression],
    file: &Taken,
) -> Result<Option<Vec<Setting<'k>>>, AllocError>
    ensures { IfOk result (λ settings. option_map (λ settings. map set_by settings.items) settings ≡ own_texts
        (found_in (record { attributes = file.now.attributes.now; uuid = file.now.uuid.now; bytes = [] })) own.now) }
{
    let mut settings = Vec::new(alloc);
    for property in own {
        let Some(text) = text_over(alloc, &property.expression, file)? else {
            return Ok(None);
        };
        let name = property.name.as_str();
        settings.push(Setting { name, text })?;
    }
    Ok(Some(settings))
}

/// The text that an expression is worth, or `None` where it has no value.
fn text_over(alloc: Global, expression: &Expr, file: &Taken) -> Result<Option<String>, AllocError>
    ensures { IfOk result (λ text. option_map string_bytes text ≡ text_in (tree_value
        (found_in (record { attributes = file.now.attributes.now; uuid = file.now.uuid.now; bytes = [] }))
        (tree_of expression.now))) }
{
    match value(alloc, expression, file) {
        Ok(value) => Ok(Some(value.into_text(alloc)?)),
        Err(EvalError::Memory) => Err(AllocError),
        Err(_) => Ok(None),
    }
}

/// Sets these attributes and passes the file on to success, or where a limit refuses one, as it was to failure.
fn set_if_fit(session: &mut Session, settings: &[Setting]) -> Result<(), AllocError>
    requires one { TookOne session.old }
    requires keys { IsTrue (have_keys (map set_by settings.now)) }
    ensures { let attributes = bench_attributes session.old FILE in
        OnOk result (EndsWith session.old session.new
        (passed_with attributes (with_all_set (FromQueue FILE) attributes (map set_by settings.now)))) }
{
    if may_set(file_of(session).attributes, settings)? {
        set(session, settings)?;
        pass(session, SUCCESS);
    } else {
        pass(session, FAILURE);
    }
    Ok(())
}

/// Whether all of these can be set, one after another. That is tried on a copy.
fn may_set(attributes: &Attributes, settings: &[Setting]) -> Result<bool, AllocError>
    requires { IsTrue (have_keys (map set_by settings.now)) }
    ensures { IfOk result (λ may. may
        ≡ is_some (with_all_set (FromQueue FILE) attributes.now (map set_by settings.now))) }
{
    let mut tried = attributes.copy()?;
    for setting in settings {
        match tried.put(setting.name, setting.text.as_str()) {
            Ok(_) => {}
            Err(AttrError::Memory) => return Err(AllocError),
            Err(_) => return Ok(false),
        }
    }
    Ok(true)
}

/// Sets attributes that can all be set.
fn set(session: &mut Session, settings: &[Setting]) -> Result<(), AllocError>
    requires one { TookOne session.old }
    requires keys { IsTrue (have_keys (map set_by settings.now)) }
    requires may { IsTrue (is_some
        (with_all_set (FromQueue FILE) (bench_attributes session.old FILE) (map set_by settings.now))) }
    ensures { OnOk result
        (IfSome (with_all_set (FromQueue FILE) (bench_attributes session.old FILE) (map set_by settings.now))
        (λ set. session.new ≡ with_attributes session.old FILE set)) }
{
    for setting in settings {
        or_no_memory(session.put_attribute(FILE, setting.name, setting.text.as_str()))?;
    }
    Ok(())
}
