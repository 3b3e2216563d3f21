// From the names, literals and parts of lists of a term to what they mean.
ghost use Rattle.std.specs.Prelude.{◌≡◌, ◌≤◌, [], length, map, All, IfOk, IfErr};
ghost use Rattle.eq_base.specs.Tree.{Tree, cells, map_heads};
ghost use Rattle.eq_base.specs.Pattern.{fixed};
ghost use Rattle.term_lex.specs.declared.token.TokenKind.TheVariants.{Dot};
ghost use Rattle.term_lex.specs.Lexemes.{Lexeme, IsAnswer};
ghost use Rattle.term_lex.specs.Parts.{One, IsKind};
ghost use Rattle.symbol_table.specs.Table.{Keeps, names_of};
ghost use Rattle.symbol_table.specs.Reading.{read, read_pattern, IsLiveTerm, IsLivePattern};
ghost use Rattle.written_terms.specs.Refusing.{IsFirstRefused};
ghost use Rattle.written_terms.specs.Answering.{IfRefused};
ghost use Rattle.written_terms.specs.Mentions.{IsMention, seen};
ghost use Rattle.written_terms.specs.Cells.{MeanCells};

use crate::cells::{cell_of, head_of};
use crate::error::ReadError;
use crate::mention::Mention;
use eq_base::{Flat, FlatMaker, Pattern, PatternMaker};
use std::alloc::Global;
use symbol_table::{Symbols, Variables};
use term_lex::{Fault, TokenKind, misplaced, next_token};

/// The place after the dot that stands next.
pub fn skip_dot(text: &[u8], at: usize) -> Result<usize, Fault>
    requires { at ≤ length text.now }
    ensures { IsAnswer (One (IsKind Dot)) text.now at result }
{
    let token = next_token(text, at)?;
    match token.kind {
        TokenKind::Dot => Ok(token.to),
        _ => Err(misplaced(token)),
    }
}

/// The ground term that the mentions mean.
pub fn term_of(
    alloc: Global,
    symbols: &mut Symbols,
    text: &[u8],
    mentions: &[Mention],
) -> Result<Flat, ReadError>
    requires mentions { All (λ m. IsMention text.now m) mentions.now }
    requires outline { (tree : Tree Lexeme) × (map (seen text.now) mentions.now ≡ cells tree) }
    ensures ok { IfOk result (λ term.
        MeanCells (names_of symbols.old) [] (map (seen text.now) mentions.now)
        (cells (map_heads fixed (read symbols.new term)))) }
    ensures live { IfOk result (λ term. IsLiveTerm symbols.new term) }
    ensures refused { IfErr result (IfRefused
        (IsFirstRefused (names_of symbols.old) [] (map (seen text.now) mentions.now))) }
    ensures keeps { Keeps symbols.old symbols.new }
{
    let mut maker = FlatMaker::new(alloc);
    for mention in mentions {
        let (head, arity) = head_of(alloc, symbols, text, *mention)?;
        maker.push_cell(head, arity)?;
    }
    Ok(maker.finish())
}

/// The pattern that the mentions mean.
pub fn pattern_of(
    alloc: Global,
    symbols: &mut Symbols,
    variables: &Variables,
    text: &[u8],
    mentions: &[Mention],
) -> Result<Pattern, ReadError>
    requires mentions { All (λ m. IsMention text.now m) mentions.now }
    requires outline { (tree : Tree Lexeme) × (map (seen text.now) mentions.now ≡ cells tree) }
    ensures ok { IfOk result (λ pattern.
        MeanCells (names_of symbols.old) variables.now (map (seen text.now) mentions.now)
        (cells (read_pattern symbols.new pattern))) }
    ensures live { IfOk result (λ pattern. IsLivePattern symbols.new pattern) }
    ensures refused { IfErr result (IfRefused
        (IsFirstRefused (names_of symbols.old) variables.now (map (seen text.now) mentions.now))) }
    ensures keeps { Keeps symbols.old symbols.new }
{
    let mut maker = PatternMaker::new(alloc);
    for mention in mentions {
        let cell = cell_of(alloc, symbols, variables, text, *mention)?;
        maker.push_cell(cell)?;
    }
    Ok(maker.finish())
}
