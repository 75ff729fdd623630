//! Reading a text with embedded expressions.
ghost use Rattle.std.specs.Prelude.{◌≡◌, ℕ, ◌==◌, ◌&&◌, ◌<◌, List, [], ◌++◌, length, map, Err, IfOk, IfErr, string_bytes};
ghost use Rattle.expr_lang.specs.Gives.{GivesTree, RefusesAt, IsSoundRefusal, IsUnreadAt};
ghost use Rattle.expr_lang.specs.declared.error.ExprError.TheVariants.{Memory};
ghost use Rattle.expr_lang.specs.Grammar.{ArePieces, IsText, IsBadAt};
ghost use Rattle.expr_lang.specs.Reading.{plain_front, plain_behind, is_special};
ghost use Rattle.expr_lang.specs.Tree.{Tree, byte, tree_of_parts};
ghost use Rattle.expr_lang.specs.View.{tree_of, piece_parts, HasParts, is_one_computed};
ghost use Rattle.std.specs.List.{flat_map, AllByRecursion};

mod embedded;
mod number;
mod quoted;
mod run;
mod text;

use crate::error::ExprError;
use crate::stop::Stop;
use crate::syntax::{Expr, Piece};
use embedded::read_embedded;
use std::alloc::{AllocError, Global};
pub(crate) use text::is_space;
use text::split_first;

/// The greatest length of a text, in bytes.
pub const TEXT_MAX: u64 = 4_096;

/// How deep embedded expressions may nest. The outermost one counts.
pub const DEPTH_MAX: u64 = 16;

/// Reads a text of at most 4,096 bytes whose embedded expressions nest at most 16 deep. `Bad` comes exactly where the
/// text isn't in the grammar, `Memory` where there is no memory for what is read. A longer text is `Bad` at 0, also
/// where there is no memory.
pub fn parse(alloc: Global, text: &str) -> Result<Expr, ExprError>
    ensures read { IfOk result (λ expr. IsText text.now (tree_of expr)) }
    ensures bad { IfErr result (IsSoundRefusal text.now) }
    ensures long { TEXT_MAX < length text.now → result ≡ Err (ExprError.Bad 0) }
    // No text has two trees, or a tree and a bad place, or two bad places.
    ensures every_tree { (tree : Tree) → IsText text.now tree → GivesTree result tree }
    ensures every_place { (place : ℕ) → IsBadAt text.now place → RefusesAt result place }
{
    if text.len() as u64 > TEXT_MAX {
        return Err(ExprError::Bad { at: 0 });
    }
    Ok(expr_of(read_pieces(alloc, text)?))
}

/// The pieces of the whole text, or the place of the first that can't be read.
fn read_pieces(alloc: Global, text: &str) -> Result<Vec<Piece>, ExprError>
    ensures pieces { IfOk result (λ pieces. ArePieces text.now (flat_map piece_parts pieces.items) []) }
    ensures parts { IfOk result (λ pieces. AllByRecursion HasParts pieces.items) }
    ensures unread { IfErr result (IsUnreadAt text.now) }
{
    let mut pieces = Vec::new(alloc);
    let mut rest = text;
    loop {
        let (plain, behind) = read_plain(alloc, rest)?;
        push_plain(&mut pieces, plain)?;
        if behind.is_empty() {
            return Ok(pieces);
        }
        let at = (text.len() - behind.len()) as u64;
        let (embedded, behind) = match read_embedded(alloc, DEPTH_MAX, behind) {
            Ok(read) => read,
            Err(Stop::Unread) => return Err(ExprError::Bad { at }),
            Err(Stop::Memory) => return Err(ExprError::Memory),
        };
        pieces.push(Piece::Computed(embedded))?;
        rest = behind;
    }
}

/// Adds a run of plain characters, where it has any.
fn push_plain(pieces: &mut Vec<Piece>, plain: String) -> Result<(), ExprError>
    ensures pieces { IfOk result
        (λ _. flat_map piece_parts pieces.new.items
        ≡ flat_map piece_parts pieces.old.items ++ map byte (string_bytes plain)) }
    ensures parts { AllByRecursion HasParts pieces.old.items
        → IfOk result (λ _. AllByRecursion HasParts pieces.new.items) }
    ensures memory { IfErr result (λ e. e ≡ Memory) }
{
    if !plain.is_empty() {
        pieces.push(Piece::Plain(plain))?;
    }
    Ok(())
}

/// The characters and dollars that stand for themselves, and the rest of the text behind them.
fn read_plain(alloc: Global, text: &str) -> Result<(String, &str), AllocError>
    ensures plain { IfOk result (λ x. string_bytes x.0 ≡ plain_front text.now) }
    ensures behind { IfOk result (λ x. x.1.now ≡ plain_behind text.now) }
{
    let mut plain = String::new(alloc);
    let mut rest = text;
    while let Some((c, behind)) = split_first(rest) {
        if begins_piece(c, behind) {
            return Ok((plain, rest));
        }
        plain.push(c)?;
        rest = behind;
    }
    Ok((plain, rest))
}

/// A dollar that doesn't stand for itself.
fn begins_piece(c: char, behind: &str) -> bool
    ensures { result ≡ ((c == 36) && is_special behind.now) }
{
    c == '$' && begins_special(behind)
}

fn begins_special(text: &str) -> bool
    ensures { result ≡ is_special text.now }
{
    let bytes = text.as_bytes();
    !bytes.is_empty() && (bytes[0] == b'$' || bytes[0] == b'{')
}

/// One embedded expression alone keeps its value; anything else is joined as text.
fn expr_of(mut pieces: Vec<Piece>) -> Expr
    requires { AllByRecursion HasParts pieces.items }
    ensures { tree_of result ≡ tree_of_parts (flat_map piece_parts pieces.items) }
{
    if !is_one_embedded(pieces.as_slice()) {
        return Expr::Joined(pieces);
    }
    match pieces.pop() {
        Some(Piece::Computed(embedded)) => Expr::Whole(embedded),
        _ => Expr::Joined(pieces),
    }
}

fn is_one_embedded(pieces: &[Piece]) -> bool
    ensures { result ≡ is_one_computed pieces.now }
{
    matches!(pieces, [Piece::Computed(_)])
}
