//! Files from nothing.
ghost use Rattle.std.specs.Prelude.{◌≡◌, ◌<◌, length, IfOk, IfSome, is_some};
ghost use Rattle.std.specs.FinMap.{get};
ghost use Rattle.expr_lang.specs.Meaning.{tree_value};
ghost use Rattle.expr_lang.specs.View.{tree_of};
ghost use Rattle.machine_model.specs.Acting.{text_or_nothing};
ghost use Rattle.process_session.specs.Bench.{bench_attributes};
ghost use Rattle.proc_source.specs.Kinds.{is_generate_flow_file};

use crate::SUCCESS;
use expr_lang::{EvalError, Expr, Subject, value};
use flowfile_record::Attributes;
use machine_model::Kind;
use process_session::Session;
use processor_api::{Acts, Given, TakeRule, or_no_memory};
use std::alloc::{AllocError, Global};

/// Makes one file: `./` as `path`, the number that it is given as `generate.index`, and as its content the custom text
/// over these, or nothing where that has no value.
#[derive(Clone, Copy)]
pub struct GenerateFlowFile<'k> {
    /// How many files it makes, one in a session.
    pub count: u32,
    pub custom_text: &'k Expr,
}

impl<'k> GenerateFlowFile<'k> {
    /// The processor of a kind, or `None` where the kind is another processor's.
    pub fn of(kind: &'k Kind) -> Option<GenerateFlowFile<'k>>
        ensures of { IfSome result (λ processor.
            Kind.GenerateFlowFile processor.count processor.custom_text.now ≡ kind.now) }
        ensures other { is_some result ≡ is_generate_flow_file kind.now }
    {
        match kind {
            Kind::GenerateFlowFile { count, custom_text } => Some(GenerateFlowFile {
                count: *count,
                custom_text,
            }),
            _ => None,
        }
    }
}

impl Acts for GenerateFlowFile<'_> {
    ghost use Rattle.machine_model.specs.declared.kind.Kind.TheVariants.{GenerateFlowFile as OfGenerateFlowFile};

    ghost kind = { λ processor. OfGenerateFlowFile processor.count processor.custom_text.now };

    fn takes(&self) -> TakeRule {
        TakeRule::Source
    }

    fn act(
        &self,
        alloc: Global,
        session: &mut Session,
        given: &mut Given,
    ) -> Result<(), AllocError> {
        let index = given.index;
        let index = format!(in alloc; "{index}")?;
        let file = or_no_memory(session.create())?;
        or_no_memory(session.put_attribute(file, "path", "./"))?;
        or_no_memory(session.put_attribute(file, "generate.index", index.as_str()))?;
        let text = text_over(alloc, self.custom_text, session, file)?;
        session.write(file, text).unwrap();
        session.transfer(file, SUCCESS).unwrap();
        Ok(())
    }
}

/// Attributes that an expression is evaluated over.
#[derive(Clone, Copy)]
struct Over<'a> {
    attributes: &'a Attributes,
}

impl Subject for Over<'_> {
    ghost attributes = { λ over. get over.attributes.now };

    fn find(&self, name: &str) -> Option<&str> {
        self.attributes.get(name)
    }
}

/// What an expression is worth as a text over the attributes of a file, or nothing where it has no value.
fn text_over(
    alloc: Global,
    expression: &Expr,
    session: &Session,
    file: u32,
) -> Result<Vec<u8>, AllocError>
    requires { file < length session.now.files }
    ensures { IfOk result (λ text. text.items
        ≡ text_or_nothing (tree_value (get (bench_attributes session.now file)) (tree_of expression.now))) }
{
    let Some(attributes) = session.attributes(file) else {
        unreachable!()
    };
    match value(alloc, expression, &Over { attributes }) {
        Ok(value) => Ok(value.into_text(alloc)?.into_bytes()),
        Err(EvalError::Memory) => Err(AllocError),
        Err(_) => Ok(Vec::new(alloc)),
    }
}
