// The classes of a file, with their names and their members.
ghost use Rattle.std.specs.Prelude.{◌≡◌, ◌≢◌, true, false, ◌+◌, ◌<◌, ◌≤◌, ◌↔◌, ◌∷◌, [], length, map, IsTrue, IfOk, IfErr, OnOk};
ghost use Rattle.term_lex.specs.declared.token.TokenKind.TheVariants.{Numeral};
ghost use Rattle.term_lex.specs.Values.{IsTokenOf};
ghost use Rattle.symbol_table.specs.Table.{Table, names_of};
ghost use Rattle.symbol_table.specs.Reading.{IsLiveHead, AreLiveClasses};
ghost use Rattle.def_file.specs.Views.{class_item};
ghost use Rattle.def_file.specs.Errors.{IfRefused};
ghost use Rattle.def_file.specs.Names.{NewClass, Member, IsClass, MeansMember, RefusesMemberAlone, member_count};
ghost use Rattle.def_file.specs.Names.{class_places, classes_places};
ghost use Rattle.def_file.specs.Naming.{IsPlaced, ArePlaced, IsTaking, no_operations};
ghost use Rattle.term_lex.specs.declared.syntax.Syntax.{Syntax as SyntaxValue};
ghost use Rattle.def_file.specs.Notations.{notation_of};

use super::faults::{bytes_of, refused};
use super::listed::Listed;
use super::operations::includes;
use crate::class_names::ClassNames;
use crate::error::FileError;
use crate::tree::ClassItem;
use eq_base::{Head, SymbolClass};
use symbol_table::{Symbols, class_named};
use term_lex::{FaultKind, Token, TokenKind, numeral_value};

/// The most classes of a file.
const MOST_CLASSES: usize = 250;

/// The most members that the classes of a file have together.
const MOST_MEMBERS: usize = 4_096;

/// Whether the name is that of a symbol class, or is one of the names.
fn is_class(name: &[u8], class_names: &ClassNames) -> bool
    ensures { IsTrue result ↔ IsClass class_names.now name.now }
{
    class_named(name).is_some() || class_names.number(name).is_some()
}

/// Begins a class with no members, and answers its number.
fn take_new_class(text: &[u8], name: Token, listed: &mut Listed) -> Result<u8, FileError>
    requires placed { IsPlaced text.now (NewClass name) }
    requires named { length listed.old.class_names ≡ length listed.old.classes }
    requires counted { listed.old.members ≡ member_count listed.old.classes }
    ensures taking { (syntax : SyntaxValue) (table : Table) → IsTaking (notation_of syntax) text.now
        (no_operations table listed.old) (NewClass name ∷ []) (no_operations table listed.new) result }
    ensures class { IfOk result (λ class. class ≡ 4 + length listed.old.classes) }
    ensures variables { listed.new.variables ≡ listed.old.variables }
    ensures named { OnOk result (length listed.new.class_names ≡ length listed.new.classes) }
    ensures len { OnOk result (length listed.new.classes ≡ length listed.old.classes + 1) }
    ensures counted { OnOk result (listed.new.members ≡ member_count listed.new.classes) }
    ensures live { (table : Table) → AreLiveClasses table listed.old.classes
        → OnOk result (AreLiveClasses table listed.new.classes) }
{
    let bytes = bytes_of(text, name);
    if is_class(bytes, &listed.class_names) {
        return Err(refused(FaultKind::Twice, name));
    }
    if listed.class_names.len() >= MOST_CLASSES {
        return Err(refused(FaultKind::ClassesPast, name));
    }
    listed.class_names.add(bytes)?;
    let class = listed.classes.begin()?;
    Ok(class)
}

/// Whether the token is a numeral.
fn is_numeral(token: Token) -> bool
    ensures yes { result ≡ true → token.kind ≡ Numeral }
    ensures not { result ≡ false → token.kind ≢ Numeral }
{
    token.kind == TokenKind::Numeral
}

/// The head that a member stands for.
fn member_head(text: &[u8], member: Token, symbols: &Symbols) -> Result<Head, FileError>
    requires placed { IsTokenOf text.now member }
    ensures head { IfOk result (MeansMember text.now (names_of symbols.now) member) }
    ensures refused { IfErr result (IfRefused (λ fault.
        RefusesMemberAlone text.now (names_of symbols.now) member fault.kind × (fault.byte ≡ member.from))) }
    ensures live { IfOk result (IsLiveHead (names_of symbols.now)) }
{
    if is_numeral(member) {
        if !includes(symbols, SymbolClass::Numerals) {
            return Err(refused(FaultKind::NotIncluded, member));
        }
        return Ok(Head::Numeral(numeral_value(text, &member)));
    }
    let Some((number, declared)) = symbols.find(bytes_of(text, member)) else {
        return Err(refused(FaultKind::Unknown, member));
    };
    if declared != 0 {
        return Err(refused(FaultKind::WrongArity { declared, found: 0 }, member));
    }
    Ok(Head::Symbol(number))
}

/// Takes a member of the class.
fn take_member(
    text: &[u8],
    class: u8,
    member: Token,
    symbols: &Symbols,
    listed: &mut Listed,
) -> Result<(), FileError>
    requires placed { IsPlaced text.now (Member class member) }
    requires first { 4 ≤ class }
    requires known { class < 4 + length listed.old.classes }
    requires counted { listed.old.members ≡ member_count listed.old.classes }
    ensures taking { (syntax : SyntaxValue) → IsTaking (notation_of syntax) text.now
        (no_operations symbols.now listed.old) (Member class member ∷ [])
        (no_operations symbols.now listed.new) result }
    ensures names { listed.new.class_names ≡ listed.old.class_names }
    ensures variables { listed.new.variables ≡ listed.old.variables }
    ensures len { length listed.new.classes ≡ length listed.old.classes }
    ensures counted { OnOk result (listed.new.members ≡ member_count listed.new.classes) }
    ensures live { AreLiveClasses (names_of symbols.now) listed.old.classes
        → OnOk result (AreLiveClasses (names_of symbols.now) listed.new.classes) }
{
    let head = member_head(text, member, symbols)?;
    if listed.classes.holds(class, head) {
        return Err(refused(FaultKind::Twice, member));
    }
    if listed.members >= MOST_MEMBERS {
        return Err(refused(FaultKind::MembersPast, member));
    }
    listed.classes.add(class, head)?;
    listed.members += 1;
    Ok(())
}

/// Takes the members of the class.
fn take_members(
    text: &[u8],
    class: u8,
    members: &[Token],
    symbols: &Symbols,
    listed: &mut Listed,
) -> Result<(), FileError>
    requires placed { ArePlaced text.now (map (Member class) members.now) }
    requires first { 4 ≤ class }
    requires known { class < 4 + length listed.old.classes }
    requires counted { listed.old.members ≡ member_count listed.old.classes }
    ensures taking { (syntax : SyntaxValue) → IsTaking (notation_of syntax) text.now
        (no_operations symbols.now listed.old) (map (Member class) members.now)
        (no_operations symbols.now listed.new) result }
    ensures names { listed.new.class_names ≡ listed.old.class_names }
    ensures variables { listed.new.variables ≡ listed.old.variables }
    ensures len { length listed.new.classes ≡ length listed.old.classes }
    ensures counted { OnOk result (listed.new.members ≡ member_count listed.new.classes) }
    ensures live { AreLiveClasses (names_of symbols.now) listed.old.classes
        → OnOk result (AreLiveClasses (names_of symbols.now) listed.new.classes) }
{
    for member in members {
        take_member(text, class, *member, symbols, listed)?;
    }
    Ok(())
}

/// Takes a class with its members.
fn take_class_item(
    text: &[u8],
    item: &ClassItem,
    symbols: &Symbols,
    listed: &mut Listed,
) -> Result<(), FileError>
    requires placed { ArePlaced text.now
        (class_places (4 + length listed.old.classes) (class_item item.now)) }
    requires named { length listed.old.class_names ≡ length listed.old.classes }
    requires counted { listed.old.members ≡ member_count listed.old.classes }
    ensures taking { (syntax : SyntaxValue) → IsTaking (notation_of syntax) text.now
        (no_operations symbols.now listed.old)
        (class_places (4 + length listed.old.classes) (class_item item.now))
        (no_operations symbols.now listed.new) result }
    ensures variables { listed.new.variables ≡ listed.old.variables }
    ensures named { OnOk result (length listed.new.class_names ≡ length listed.new.classes) }
    ensures len { OnOk result (length listed.new.classes ≡ length listed.old.classes + 1) }
    ensures counted { OnOk result (listed.new.members ≡ member_count listed.new.classes) }
    ensures live { AreLiveClasses (names_of symbols.now) listed.old.classes
        → OnOk result (AreLiveClasses (names_of symbols.now) listed.new.classes) }
{
    let class = take_new_class(text, item.name, listed)?;
    take_members(text, class, &item.members, symbols, listed)?;
    Ok(())
}

/// Takes the classes of the file.
pub fn take_class_items(
    text: &[u8],
    items: &[ClassItem],
    symbols: &Symbols,
    listed: &mut Listed,
) -> Result<(), FileError>
    requires placed { ArePlaced text.now (classes_places 4 (map class_item items.now)) }
    requires none { listed.old.classes ≡ [] }
    requires no_names { listed.old.class_names ≡ [] }
    requires no_members { listed.old.members ≡ 0 }
    ensures taking { (syntax : SyntaxValue) → IsTaking (notation_of syntax) text.now
        (no_operations symbols.now listed.old) (classes_places 4 (map class_item items.now))
        (no_operations symbols.now listed.new) result }
    ensures variables { listed.new.variables ≡ listed.old.variables }
    ensures named { OnOk result (length listed.new.class_names ≡ length listed.new.classes) }
    ensures live { OnOk result (AreLiveClasses (names_of symbols.now) listed.new.classes) }
{
    for item in items {
        take_class_item(text, item, symbols, listed)?;
    }
    Ok(())
}
