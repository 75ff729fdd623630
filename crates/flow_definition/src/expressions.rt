//! Reading the expressions of a processor's own properties.
ghost use Rattle.std.specs.Prelude.{◌≡◌, IfOk, MatchOption};
ghost use Rattle.serde_json.specs.View.{view, members_view};
ghost use Rattle.flow_definition.specs.Looks.{member_list, others, own_texts_in, texts_of};
ghost use Rattle.flow_definition.specs.Made.{AreOwnMade, IsNoExpression};
ghost use Rattle.flow_definition.specs.Reading.{IsOwnOf};

use crate::look::{is_fixed, own_properties, properties_in, text_of};
use crate::processor_type::Property;
use expr_lang::{ExprError, parse};
use flowfile_record::{Sequence, Text};
use machine_model::{OwnExpression, OwnExpressionList};
use serde_json::{Map, Value};
use std::alloc::{AllocError, Global};

/// What becomes of the properties of a processor's own.
#[derive(Drop)]
pub(crate) enum MadeOwn {
    Read(OwnExpressionList),
    /// The first whose text is no expression, by its name.
    Unread(Text),
}

/// The properties of a processor's own, read in the order of their names.
pub(crate) fn make_own(alloc: Global, processor: &Value) -> Result<MadeOwn, AllocError>
    ensures { IfOk result (AreOwnMade (own_texts_in (view processor.now))) }
{
    match own_properties(processor) {
        Some(members) => make_members(alloc, properties_in(processor), members),
        None => Ok(MadeOwn::Read(Sequence::new(alloc))),
    }
}

fn make_members(
    alloc: Global,
    properties: &[Property],
    members: &Map<String, Value>,
) -> Result<MadeOwn, AllocError>
    ensures { IfOk result
        (AreOwnMade (texts_of (others properties.now (member_list (members_view members.now.entries))))) }
{
    let mut list = Vec::new(alloc);
    'members: for (name, value) in members {
        if !is_fixed(name.as_str(), properties) {
            match own_expression(alloc, name.as_str(), text_of(value))? {
                Some(own) => list.push(own)?,
                None => return Ok(MadeOwn::Unread(Text::from_str(alloc, name.as_str())?)),
            }
        }
    }
    Ok(MadeOwn::Read(Sequence::from(list)))
}

/// An own property, unless its text is no expression.
fn own_expression(
    alloc: Global,
    name: &str,
    text: &str,
) -> Result<Option<OwnExpression>, AllocError>
    ensures { IfOk result (λ own. MatchOption own (IsNoExpression text.now) (IsOwnOf (name.now, text.now))) }
{
    match parse(alloc, text) {
        Ok(expression) => Ok(Some(OwnExpression {
            name: Text::from_str(alloc, name)?,
            expression,
        })),
        Err(ExprError::Bad { .. }) => Ok(None),
        Err(ExprError::Memory) => Err(AllocError),
    }
}
