//! Reading the text of a flow from its source.
ghost use Rattle.std.specs.Prelude.{◌≡◌, ◌⊎◌, ℕ, ◌+◌, ◌≤◌, ◌<◌, List, [], ◌++◌, true, false, take, length, IsTrue, IsErr, IsErrOf, IfOk, IfErr};
ghost use Rattle.disk_trait.specs.Faults.{CountsFaults};
ghost use Rattle.flow_definition.specs.Patterns.{told_by_builder};
ghost use Rattle.flow_definition.specs.declared.rule.Rule.{Rule as TheRule};
ghost use Rattle.run_top.specs.Text.{BreaksRule, IsOfText, IsReadFlow, TextIsRefused};

use crate::Answer;
use flow_definition::{FlowError, Patterns, TEXT_MAX, read_flow};
use machine_model::Flow;
use std::alloc::Global;
use world_io::Source;

/// How many bytes are asked for at once.
const PIECE: usize = 65_536;

/// Reads the flow that a source has the text of.
pub(crate) fn read<F: Source, P: Patterns>(
    alloc: Global,
    source: &mut F,
    patterns: &mut P,
) -> Result<Flow, Answer>
    ensures accepted { IfOk result (IsReadFlow F.tells (F.rest source.old)) }
    ensures refused { (rule : TheRule) (place : List ℕ) → IsErrOf result (Answer.Refused rule place)
        → TextIsRefused (told_by_builder P.faults P.refused patterns.old)
        (told_by_builder P.faults P.refused patterns.new) F.tells
        (F.rest source.old) rule place }
    ensures broken { IsTrue F.tells → BreaksRule (F.rest source.old) → IsErr result }
    ensures kinds { IfErr result IsOfText }
    ensures cause { CountsFaults (F.faults source.old) (F.faults source.new) (IsErrOf result Answer.Source) }
{
    let text = match read_text(alloc, source) {
        Ok(text) => text,
        Err(answer) => return Err(answer),
    };
    match read_flow(alloc, text.as_slice(), patterns) {
        Ok(flow) => Ok(flow),
        Err(FlowError::Rule { rule, place }) => Err(Answer::Refused { rule, place }),
        Err(FlowError::Memory) => Err(Answer::Memory),
    }
}

// Reads a source to its end, or to one byte more than a text may have.
fn read_text<F: Source>(alloc: Global, source: &mut F) -> Result<Vec<u8>, Answer>
    ensures text { IfOk result (λ text. IsTrue F.tells → text.items ≡ take (TEXT_MAX + 1) (F.rest source.old)) }
    ensures kinds { IfErr result (λ error. (error ≡ Answer.Source) ⊎ (error ≡ Answer.Memory)) }
    ensures cause { CountsFaults (F.faults source.old) (F.faults source.new) (IsErrOf result Answer.Source) }
{
    let most = TEXT_MAX as usize + 1;
    let mut text = Vec::new(alloc);
    let mut buffer = vec![in alloc; 0; PIECE]?;
    let piece = buffer.as_mut_slice();
    'pieces: while text.len() < most {
        let room = PIECE.min(most - text.len());
        if !read_more(source, &mut piece[..room], &mut text)? {
            return Ok(text);
        }
    }
    Ok(text)
}

// Reads a piece behind a text. Whether there was one, and not the end.
fn read_more<F: Source>(
    source: &mut F,
    piece: &mut [u8],
    text: &mut Vec<u8>,
) -> Result<bool, Answer>
    requires { 0 < length piece.old }
    ensures text { IfOk result (λ more. IsTrue F.tells
        → text.old.items ++ F.rest source.old ≡ text.new.items ++ F.rest source.new) }
    ensures longer { IfOk result (λ more. more ≡ true → length text.old.items < length text.new.items) }
    ensures within { IfOk result (λ more. length text.new.items ≤ length text.old.items + length piece.old) }
    ensures end { IfOk result (λ more. more ≡ false → IsTrue F.tells → F.rest source.new ≡ []) }
    ensures kinds { IfErr result (λ error. (error ≡ Answer.Source) ⊎ (error ≡ Answer.Memory)) }
    ensures cause { CountsFaults (F.faults source.old) (F.faults source.new) (IsErrOf result Answer.Source) }
{
    let Ok(count) = source.read(piece) else {
        return Err(Answer::Source);
    };
    text.extend_from_slice(&piece[..count])?;
    Ok(count > 0)
}
