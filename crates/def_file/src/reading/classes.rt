// The section of classes.
ghost use Rattle.std.specs.Prelude.{◌≤◌, length, map};
ghost use Rattle.term_lex.specs.declared.token.TokenKind.TheVariants.{Comma, Semicolon, Dot};
ghost use Rattle.term_lex.specs.Parts.{IsKind, Led, Closed};
ghost use Rattle.def_file.specs.Grammar.{IsMember, AreMembers, IsClassItem, AreMoreClasses, AreListed, AreClasses};
ghost use Rattle.def_file.specs.Views.{class_item};
ghost use Rattle.def_file.specs.Reading.{IsReadBy};

use super::tokens::{next_is, next_is_word, read_token, skip_kind, skip_word};
use crate::error::FileError;
use crate::tree::ClassItem;
use std::alloc::Global;
use term_lex::{Token, TokenKind};

/// A name or a numeral.
fn read_member(text: &[u8], at: usize) -> Result<(Token, usize), FileError>
    requires { at ≤ length text.now }
    ensures { IsReadBy IsMember (λ member. member) text.now at result }
{
    if next_is(text, at, TokenKind::Name) {
        let (name, name_end) = read_token(text, at, TokenKind::Name)?;
        return Ok((name, name_end));
    }
    let (numeral, end) = read_token(text, at, TokenKind::Numeral)?;
    Ok((numeral, end))
}

/// A comma and a member.
fn read_next_member(text: &[u8], at: usize) -> Result<(Token, usize), FileError>
    requires { at ≤ length text.now }
    ensures { IsReadBy (Led (IsKind Comma) IsMember) (λ member. member) text.now at result }
{
    let member_at = skip_kind(text, at, TokenKind::Comma)?;
    let (member, end) = read_member(text, member_at)?;
    Ok((member, end))
}

/// Members with commas between them.
fn read_members(alloc: Global, text: &[u8], at: usize) -> Result<(Vec<Token>, usize), FileError>
    requires { at ≤ length text.now }
    ensures { IsReadBy AreMembers (λ members. members.items) text.now at result }
{
    let mut members = Vec::new(alloc);
    let (first, first_end) = read_member(text, at)?;
    members.push(first)?;
    let mut end = first_end;
    'members: while next_is(text, end, TokenKind::Comma) {
        let (member, member_end) = read_next_member(text, end)?;
        members.push(member)?;
        end = member_end;
    }
    Ok((members, end))
}

/// A name, a colon and members.
fn read_class_item(alloc: Global, text: &[u8], at: usize) -> Result<(ClassItem, usize), FileError>
    requires { at ≤ length text.now }
    ensures { IsReadBy IsClassItem class_item text.now at result }
{
    let (name, colon_at) = read_token(text, at, TokenKind::Name)?;
    let members_at = skip_kind(text, colon_at, TokenKind::Colon)?;
    let (members, end) = read_members(alloc, text, members_at)?;
    let item = ClassItem { name, members };
    Ok((item, end))
}

/// Classes, and the dot that ends them.
fn read_class_items(
    alloc: Global,
    text: &[u8],
    at: usize,
) -> Result<(Vec<ClassItem>, usize), FileError>
    requires { at ≤ length text.now }
    ensures { IsReadBy (Closed (IsKind Semicolon) (IsKind Dot) IsClassItem)
        (λ v. map class_item v.items) text.now at result }
{
    let mut items = Vec::new(alloc);
    let mut at = at;
    'items: while !next_is(text, at, TokenKind::Dot) {
        let (item, item_end) = read_class_item(alloc, text, at)?;
        items.push(item)?;
        if !next_is(text, item_end, TokenKind::Semicolon) {
            let end = skip_kind(text, item_end, TokenKind::Dot)?;
            return Ok((items, end));
        }
        at = skip_kind(text, item_end, TokenKind::Semicolon)?;
    }
    let end = skip_kind(text, at, TokenKind::Dot)?;
    Ok((items, end))
}

/// A semicolon and classes.
fn read_next_classes(
    alloc: Global,
    text: &[u8],
    at: usize,
) -> Result<(Vec<ClassItem>, usize), FileError>
    requires { at ≤ length text.now }
    ensures { IsReadBy (Led (IsKind Semicolon) (Closed (IsKind Semicolon) (IsKind Dot) IsClassItem))
        (λ v. map class_item v.items) text.now at result }
{
    let items_at = skip_kind(text, at, TokenKind::Semicolon)?;
    let (items, end) = read_class_items(alloc, text, items_at)?;
    Ok((items, end))
}

/// What stands behind the first class: the dot, or a semicolon and the others.
fn read_more_classes(
    alloc: Global,
    text: &[u8],
    at: usize,
) -> Result<(Vec<ClassItem>, usize), FileError>
    requires { at ≤ length text.now }
    ensures { IsReadBy AreMoreClasses (λ v. map class_item v.items) text.now at result }
{
    if next_is(text, at, TokenKind::Semicolon) {
        let (items, items_end) = read_next_classes(alloc, text, at)?;
        return Ok((items, items_end));
    }
    let end = skip_kind(text, at, TokenKind::Dot)?;
    Ok((Vec::new(alloc), end))
}

/// The word `Classes`, a class and the others.
fn read_listed(
    alloc: Global,
    text: &[u8],
    at: usize,
) -> Result<((ClassItem, Vec<ClassItem>), usize), FileError>
    requires { at ≤ length text.now }
    ensures { IsReadBy AreListed (λ c. (class_item c.0, map class_item c.1.items)) text.now at result }
{
    let first_at = skip_word(text, at, b"Classes")?;
    let (first, more_at) = read_class_item(alloc, text, first_at)?;
    let (more, end) = read_more_classes(alloc, text, more_at)?;
    Ok(((first, more), end))
}

/// The classes, if the section is there.
pub fn read_classes(
    alloc: Global,
    text: &[u8],
    at: usize,
) -> Result<(Vec<ClassItem>, usize), FileError>
    requires { at ≤ length text.now }
    ensures { IsReadBy AreClasses (λ v. map class_item v.items) text.now at result }
{
    if next_is_word(text, at, b"Classes") {
        let ((first, more), end) = read_listed(alloc, text, at)?;
        let mut classes = more;
        classes.insert(0, first)?;
        return Ok((classes, end));
    }
    Ok((Vec::new(alloc), at))
}
