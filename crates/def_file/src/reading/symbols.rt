// The section of symbols.
ghost use Rattle.std.specs.Prelude.{◌≤◌, length, map};
ghost use Rattle.term_lex.specs.declared.token.TokenKind.TheVariants.{Semicolon, Dot};
ghost use Rattle.term_lex.specs.Parts.{IsKind, Closed};
ghost use Rattle.def_file.specs.Grammar.{IsDeclaration, IsSymbolItem};
ghost use Rattle.def_file.specs.Views.{symbol_item};
ghost use Rattle.def_file.specs.Reading.{IsReadBy};

use super::names::read_include;
use super::tokens::{next_is, next_is_word, read_token, skip_kind};
use crate::error::FileError;
use crate::tree::SymbolItem;
use std::alloc::Global;
use term_lex::{Token, TokenKind};

/// A name, a colon and a numeral.
fn read_declaration(text: &[u8], at: usize) -> Result<((Token, Token), usize), FileError>
    requires { at ≤ length text.now }
    ensures { IsReadBy IsDeclaration (λ x. x) text.now at result }
{
    let (name, colon_at) = read_token(text, at, TokenKind::Name)?;
    let arity_at = skip_kind(text, colon_at, TokenKind::Colon)?;
    let (arity, end) = read_token(text, arity_at, TokenKind::Numeral)?;
    Ok(((name, arity), end))
}

/// A declaration or an include.
fn read_symbol_item(alloc: Global, text: &[u8], at: usize) -> Result<(SymbolItem, usize), FileError>
    requires { at ≤ length text.now }
    ensures { IsReadBy IsSymbolItem symbol_item text.now at result }
{
    if next_is_word(text, at, b"include") {
        let ((include, names), names_end) = read_include(alloc, text, at)?;
        return Ok((SymbolItem::Includes(include, names), names_end));
    }
    let ((name, arity), end) = read_declaration(text, at)?;
    Ok((SymbolItem::Declares(name, arity), end))
}

/// The items of the section of symbols, and the dot that ends it.
pub fn read_symbol_items(
    alloc: Global,
    text: &[u8],
    at: usize,
) -> Result<(Vec<SymbolItem>, usize), FileError>
    requires { at ≤ length text.now }
    ensures { IsReadBy (Closed (IsKind Semicolon) (IsKind Dot) IsSymbolItem)
        (λ v. map symbol_item v.items) text.now at result }
{
    let mut items = Vec::new(alloc);
    let mut at = at;
    'items: while !next_is(text, at, TokenKind::Dot) {
        let (item, item_end) = read_symbol_item(alloc, text, at)?;
        items.push(item)?;
        if !next_is(text, item_end, TokenKind::Semicolon) {
            let end = skip_kind(text, item_end, TokenKind::Dot)?;
            return Ok((items, end));
        }
        at = skip_kind(text, item_end, TokenKind::Semicolon)?;
    }
    let end = skip_kind(text, at, TokenKind::Dot)?;
    Ok((items, end))
}
