//! The processors of the flow.
ghost use Rattle.std.specs.Prelude.{◌≡◌, map, IfOk};
ghost use Rattle.expr_lang.specs.declared.syntax.Expr.{Expr};
ghost use Rattle.trial_flow.specs.Trial.{AreTrialProcessors, IsReadable, Says, trial_processor, processors, trial_generator, router, splitter, merger, putter};

use crate::defaults::{MAXIMUM_ENTRIES, MINIMUM_ENTRIES, PENALTY};
use expr_lang::{Expr, ExprError, parse};
use flowfile_record::{Sequence, Text, TextList};
use machine_model::{Conflict, Kind, MergeStrategy, OwnExpression, Processor, ProcessorList};
use std::alloc::{AllocError, Global};

/// The processors of a flow that makes so many files.
pub(crate) fn processors(alloc: Global, count: u32) -> Result<ProcessorList, AllocError>
    ensures { IfOk result (AreTrialProcessors count) }
{
    let text = read(alloc, "a${generate.index}\nb\nc\n")?;
    let tens = read(alloc, "${generate.index:endsWith('0')}")?;
    processors_with(alloc, count, text, tens)
}

fn processors_with(
    alloc: Global,
    count: u32,
    text: Expr,
    tens: Expr,
) -> Result<ProcessorList, AllocError>
    ensures { IfOk result (λ list. list ≡ processors count text tens) }
{
    let mut list = Vec::new(alloc);
    list.push(generator(alloc, count, text)?)?;
    list.push(router(alloc, tens)?)?;
    list.push(splitter(alloc)?)?;
    list.push(merger(alloc)?)?;
    list.push(putter(alloc)?)?;
    Ok(Sequence::from(list))
}

/// The expression that a text says.
fn read(alloc: Global, text: &str) -> Result<Expr, AllocError>
    requires { IsReadable text.now }
    ensures { IfOk result (Says text.now) }
{
    match parse(alloc, text) {
        Ok(expression) => Ok(expression),
        Err(ExprError::Memory) => Err(AllocError),
        Err(ExprError::Bad { .. }) => unreachable!(),
    }
}

fn generator(alloc: Global, count: u32, custom_text: Expr) -> Result<Processor, AllocError>
    ensures { IfOk result (λ made. made ≡ trial_generator count custom_text) }
{
    let kind = Kind::GenerateFlowFile { count, custom_text };
    processor(alloc, "gen", kind, 1, &[])
}

fn router(alloc: Global, tens: Expr) -> Result<Processor, AllocError>
    ensures { IfOk result (λ made. made ≡ router tens) }
{
    let own = vec![in alloc;
        OwnExpression {
            name: Text::from_str(alloc, "tens")?,
            expression: tens,
        },
    ]?;
    let kind = Kind::RouteOnAttribute {
        own: Sequence::from(own),
    };
    processor(alloc, "route", kind, 4, &[])
}

fn splitter(alloc: Global) -> Result<Processor, AllocError>
    ensures { IfOk result (λ made. made ≡ splitter) }
{
    let kind = Kind::SplitText { lines: 1 };
    processor(alloc, "split", kind, 4, &["original", "failure"])
}

fn merger(alloc: Global) -> Result<Processor, AllocError>
    ensures { IfOk result (λ made. made ≡ merger) }
{
    let kind = Kind::MergeContent {
        strategy: MergeStrategy::Defragment,
        minimum: MINIMUM_ENTRIES,
        maximum: MAXIMUM_ENTRIES,
    };
    processor(alloc, "merge", kind, 1, &["original", "failure"])
}

fn putter(alloc: Global) -> Result<Processor, AllocError>
    ensures { IfOk result (λ made. made ≡ putter) }
{
    let kind = Kind::PutFile {
        conflict: Conflict::Replace,
    };
    processor(alloc, "put", kind, 4, &["success", "failure"])
}

fn processor(
    alloc: Global,
    id: &str,
    kind: Kind,
    tasks: u8,
    terminated: &[&str],
) -> Result<Processor, AllocError>
    ensures { IfOk result (λ made. made ≡ trial_processor id.now kind tasks (map (λ name. name.now) terminated.now)) }
{
    let id = Text::from_str(alloc, id)?;
    let terminated = texts(alloc, terminated)?;
    Ok(Processor {
        id,
        kind,
        tasks,
        penalty: PENALTY,
        terminated,
    })
}

fn texts(alloc: Global, names: &[&str]) -> Result<TextList, AllocError>
    ensures { IfOk result (λ list. list ≡ map (λ name. name.now) names.now) }
{
    let mut list = Vec::new(alloc);
    'names: for name in names {
        list.push(Text::from_str(alloc, name)?)?;
    }
    Ok(Sequence::from(list))
}
