// The heads for which names, literals and parts of lists stand.
ghost use Rattle.std.specs.Prelude.{◌≡◌, ◌≢◌, ◌⊎◌, [], codes, Some, slice_get, Contains, IfOk, IfErr, IfSome, IsNone};
ghost use Rattle.eq_base.specs.Pattern.{fixed};
ghost use Rattle.eq_base.specs.Mapping.{map_cell};
ghost use Rattle.eq_base.specs.Cells.{TakesArguments, CellTakesArguments, kind_of, arity_in};
ghost use Rattle.term_lex.specs.declared.token.TokenKind.TheVariants.{Name};
ghost use Rattle.term_lex.specs.declared.fault.FaultKind.TheVariants.{NotIncluded, ListNeedsCons, WrongArity};
ghost use Rattle.term_lex.specs.Lexemes.{lexeme};
ghost use Rattle.term_lex.specs.Values.{IsTokenOf};
ghost use Rattle.symbol_table.specs.Table.{Keeps, IsDeclared, names_of};
ghost use Rattle.symbol_table.specs.Refusing.{RefusesUse};
ghost use Rattle.symbol_table.specs.Reading.{read_head, IsLiveHead, IsLiveCell};
ghost use Rattle.written_terms.specs.declared.error.ReadError.TheVariants.{Refused};
ghost use Rattle.written_terms.specs.Meaning.{NamesHead, IsLiteral, HasLists, IsListPart, MeansCell};
ghost use Rattle.written_terms.specs.Refusing.{RefusesLiteral, RefusesCell};
ghost use Rattle.written_terms.specs.Answering.{IfRefused};
ghost use Rattle.written_terms.specs.Mentions.{IsLiteralKind, IsMention};

use crate::error::ReadError;
use crate::mention::Mention;
use eq_base::{Cell, Head, SymbolClass};
use std::alloc::Global;
use symbol_table::{SymbolError, Symbols, Variables};
use term_lex::{Fault, FaultKind, Token, TokenKind, numeral_value, string_value};

/// The symbol of an element of a list and of what follows it.
const CONS: &[u8] = b"cons";

/// The symbol of the end of a list.
const NIL: &[u8] = b"nil";

/// A fault at the token.
fn refused(kind: FaultKind, token: Token) -> ReadError
    ensures { result ≡ Refused (record { kind = kind; byte = token.from }) }
{
    ReadError::Refused(Fault {
        kind,
        byte: token.from,
    })
}

/// The bytes of a token.
fn bytes_of(text: &[u8], token: Token) -> &[u8]
    requires { IsTokenOf text.now token }
    ensures { result.now ≡ (lexeme text.now token).bytes }
{
    &text[token.from..token.to]
}

/// The head of a numeral or a string, where its class is included.
fn literal_of(
    alloc: Global,
    symbols: &mut Symbols,
    text: &[u8],
    token: Token,
) -> Result<Head, ReadError>
    requires stands { IsTokenOf text.now token }
    requires literal { IsLiteralKind token.kind }
    ensures ok { IfOk result (λ head.
        IsLiteral (names_of symbols.old) (lexeme text.now token) (read_head symbols.new head)
        × TakesArguments head 0 × IsLiveHead symbols.new head) }
    ensures refused { IfErr result (IfRefused (λ fault.
        RefusesLiteral (names_of symbols.old) (lexeme text.now token)
        × (fault ≡ record { kind = NotIncluded; byte = token.from }))) }
    ensures keeps { Keeps symbols.old symbols.new }
{
    match token.kind {
        TokenKind::Numeral if symbols.included(SymbolClass::Numerals.number()) => {
            Ok(Head::Numeral(numeral_value(text, &token)))
        }
        TokenKind::Text if symbols.included(SymbolClass::Strings.number()) => {
            let value = string_value(alloc, text, &token)?;
            Ok(Head::Text(symbols.intern_text(&value)?))
        }
        _ => Err(refused(FaultKind::NotIncluded, token)),
    }
}

/// The head of a name, and its number of arguments.
fn named(symbols: &mut Symbols, name: &[u8], mention: Mention) -> Result<(Head, u8), ReadError>
    ensures ok { IfOk result (λ x.
        NamesHead (names_of symbols.old) name.now mention.args (read_head symbols.new x.0)
        × (x.1 ≡ mention.args) × TakesArguments x.0 x.1 × IsLiveHead symbols.new x.0) }
    ensures refused { IfErr result (IfRefused (λ fault.
        RefusesUse (names_of symbols.old) name.now mention.args fault.kind
        × (fault.byte ≡ mention.token.from))) }
    ensures keeps { Keeps symbols.old symbols.new }
{
    match symbols.resolve(name, mention.args) {
        Ok(head) => Ok((head, mention.args as u8)),
        Err(SymbolError::Refused(kind)) => Err(refused(kind, mention.token)),
        Err(SymbolError::NoMemory) => Err(ReadError::NoMemory),
    }
}

/// The numbers of `cons` and `nil`, where lists can be written.
pub fn list_symbols(symbols: &Symbols) -> Option<(u32, u32)>
    ensures some { IfSome result (λ x.
        IsDeclared symbols.now (codes "cons") x.0 2 × IsDeclared symbols.now (codes "nil") x.1 0) }
    ensures none { IsNone result → ¬ HasLists (names_of symbols.now) }
{
    let (cons, elements) = symbols.find(CONS)?;
    let (nil, none) = symbols.find(NIL)?;
    if elements != 2 || none != 0 {
        return None;
    }
    Some((cons, nil))
}

/// The symbol of a part of a list, and its number of arguments.
fn list_part(symbols: &Symbols, mention: Mention) -> Result<(Head, u8), ReadError>
    requires { (mention.args ≡ 0) ⊎ (mention.args ≡ 2) }
    ensures ok { IfOk result (λ x.
        IsListPart (names_of symbols.now) mention.args (read_head symbols.now x.0)
        × (x.1 ≡ mention.args) × TakesArguments x.0 x.1 × IsLiveHead symbols.now x.0) }
    ensures refused { IfErr result (IfRefused (λ fault.
        (¬ HasLists (names_of symbols.now))
        × (fault ≡ record { kind = ListNeedsCons; byte = mention.token.from }))) }
{
    match list_symbols(symbols) {
        Some((_, nil)) if mention.args == 0 => Ok((Head::Symbol(nil), 0)),
        Some((cons, _)) => Ok((Head::Symbol(cons), 2)),
        None => Err(refused(FaultKind::ListNeedsCons, mention.token)),
    }
}

/// What a mention in a ground term means, and its number of arguments.
pub fn head_of(
    alloc: Global,
    symbols: &mut Symbols,
    text: &[u8],
    mention: Mention,
) -> Result<(Head, u8), ReadError>
    requires { IsMention text.now mention }
    ensures ok { IfOk result (λ x.
        MeansCell (names_of symbols.old) [] (lexeme text.now mention.token) mention.args
        (fixed (read_head symbols.new x.0))
        × (x.1 ≡ mention.args) × TakesArguments x.0 x.1 × IsLiveHead symbols.new x.0) }
    ensures refused { IfErr result (IfRefused (λ fault.
        RefusesCell (names_of symbols.old) [] (lexeme text.now mention.token) mention.args fault.kind
        × (fault.byte ≡ mention.token.from))) }
    ensures keeps { Keeps symbols.old symbols.new }
{
    match mention.token.kind {
        TokenKind::Name => named(symbols, bytes_of(text, mention.token), mention),
        TokenKind::OpenRound => list_part(symbols, mention),
        _ => Ok((literal_of(alloc, symbols, text, mention.token)?, 0)),
    }
}

/// The variable that a mention names, if it names one.
fn variable_of(
    variables: &Variables,
    text: &[u8],
    mention: Mention,
) -> Result<Option<u32>, ReadError>
    requires { IsTokenOf text.now mention.token }
    ensures some { IfOk result (λ found. IfSome found (λ variable.
        (mention.token.kind ≡ Name) × (mention.args ≡ 0)
        × (slice_get variables.now variable ≡ Some (lexeme text.now mention.token).bytes))) }
    ensures none { IfOk result (λ found. IsNone found → mention.token.kind ≡ Name
        → ¬ Contains variables.now (lexeme text.now mention.token).bytes) }
    ensures refused { IfErr result (IfRefused (λ fault.
        (mention.token.kind ≡ Name) × Contains variables.now (lexeme text.now mention.token).bytes
        × (mention.args ≢ 0)
        × (fault ≡ record { kind = WrongArity 0 mention.args; byte = mention.token.from }))) }
{
    if mention.token.kind != TokenKind::Name {
        return Ok(None);
    }
    let name = bytes_of(text, mention.token);
    match variables.find(name) {
        Some(variable) if mention.args == 0 => Ok(Some(variable)),
        Some(_) => {
            let kind = FaultKind::WrongArity {
                declared: 0,
                found: mention.args,
            };
            Err(refused(kind, mention.token))
        }
        None => Ok(None),
    }
}

/// What a mention in a pattern means.
pub fn cell_of(
    alloc: Global,
    symbols: &mut Symbols,
    variables: &Variables,
    text: &[u8],
    mention: Mention,
) -> Result<Cell, ReadError>
    requires { IsMention text.now mention }
    ensures ok { IfOk result (λ cell.
        MeansCell (names_of symbols.old) variables.now (lexeme text.now mention.token) mention.args
        (map_cell (read_head symbols.new) (kind_of cell))
        × (arity_in cell ≡ mention.args) × CellTakesArguments cell × IsLiveCell symbols.new (kind_of cell)) }
    ensures refused { IfErr result (IfRefused (λ fault.
        RefusesCell (names_of symbols.old) variables.now (lexeme text.now mention.token) mention.args
        fault.kind
        × (fault.byte ≡ mention.token.from))) }
    ensures keeps { Keeps symbols.old symbols.new }
{
    if let Some(variable) = variable_of(variables, text, mention)? {
        return Ok(Cell::Var(variable));
    }
    let (head, arity) = head_of(alloc, symbols, text, mention)?;
    Ok(Cell::Head(head, arity))
}
