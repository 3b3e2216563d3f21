// What comes next in an input: a term, or the end.
ghost use Rattle.std.specs.Prelude.{◌≡◌, ◌≢◌, ◌↔◌, ◌≤◌, [], length, true, IfOk, OnOk};
ghost use Rattle.symbol_table.specs.Table.{Keeps, names_of};
ghost use Rattle.term_input.specs.Ending.{BytesEnded};
ghost use Rattle.term_input.specs.Streams.{MayTake};
ghost use Rattle.ei_program.specs.Reading.{window_of, MayChange, EndsSo, Goes, IsCounted, SkipsTo};
ghost use Rattle.ei_program.specs.Reading.{IsFarther, IsLiveNext, IsThing, ComesNext};

use crate::dots::Dots;
use crate::gap::skipped;
use eq_base::{Flat, NoMemory};
use eq_ports::Source;
use std::alloc::Global;
use symbol_table::Symbols;
use term_input::{Stream, read_term};
use term_lex::{Fault, FaultKind, Syntax};
use written_terms::ReadError;

/// The most bytes of a term: 2^24.
const WINDOW_BYTES: usize = 16_777_216;

/// How the reading of an input ends.
#[derive(Clone, Copy, Debug, PartialEq, Eq)]
pub enum End {
    /// Nothing is left.
    Whole,
    /// A term is refused.
    Refused(Fault),
    /// There are more bytes than the limit.
    Long,
}

/// What comes next in an input.
#[derive(Drop)]
pub enum Next {
    /// A term.
    Term(Flat),
    /// The end.
    End(End),
}

/// Gives up blanks and comments, and says whether something else stands behind them; takes what is needed for
/// it.
fn skip_gap<I: Source>(stream: &mut Stream, input: &mut I) -> Result<bool, NoMemory>
    requires { stream.old.place ≤ stream.old.limit }
    ensures goes { IfOk result (λ stands. Goes (I.left input.old) (I.left input.new) stream.old stream.new
        (SkipsTo stands stream.old stream.new)) }
    ensures count { IsCounted (I.faults input.old) (I.faults input.new) stream.old stream.new }
    ensures through { I.through input.new ≡ I.through input.old }
{
    let mut in_comment = false;
    'gap: loop {
        let readable = stream.readable();
        let (len, inside) = skipped(readable, in_comment);
        in_comment = inside;
        let stands = len < readable.len();
        let place = stream.place() + len as u64;
        stream.drop_to(place);
        if stands || !stream.may_take() {
            return Ok(stands);
        }
        stream.take_more(input)?;
    }
}

/// The bytes in which a term is read that begins with the first byte that is held.
fn window(stream: &Stream) -> &[u8]
    ensures { result.now ≡ window_of stream.now }
{
    let readable = stream.readable();
    &readable[..readable.len().min(WINDOW_BYTES)]
}

/// Whether more bytes can change how a term is read that begins with the first byte that is held.
fn may_change(stream: &Stream) -> bool
    ensures { (result ≡ true) ↔ MayChange stream.now }
{
    stream.may_take() && stream.bytes().len() <= WINDOW_BYTES
}

/// Whether the bytes ended before the term did that has this fault.
fn bytes_ended(window: &[u8], fault: Fault) -> bool
    requires { fault.byte ≤ length window.now }
    ensures { (result ≡ true) ↔ BytesEnded window.now fault }
{
    match fault.kind {
        FaultKind::Unended => true,
        FaultKind::OpenString => !window[fault.byte..].contains(&b'\n'),
        _ => false,
    }
}

/// The end where nothing is left of the bytes up to the limit.
fn end_behind(stream: &Stream) -> End
    ensures whole { stream.now.bytes ≡ [] → result ≡ End.Whole }
    ensures long { stream.now.bytes ≢ [] → result ≡ End.Long }
{
    if stream.bytes().is_empty() {
        End::Whole
    } else {
        End::Long
    }
}

/// The end at a term with a fault that begins with the first byte that is held.
fn end_at(stream: &Stream, fault: Fault) -> End
    requires { fault.byte ≤ length (window_of stream.now) }
    ensures { EndsSo stream.now fault result }
{
    let window = window(stream);
    let from = stream.place() as usize;
    if !bytes_ended(window, fault) || window.len() == stream.bytes().len() {
        return End::Refused(Fault {
            kind: fault.kind,
            byte: from + fault.byte,
        });
    }
    if window.len() < WINDOW_BYTES {
        return End::Long;
    }
    End::Refused(Fault {
        kind: FaultKind::TermLong,
        byte: from,
    })
}

/// Takes more, until a dot that can end the term was taken or no more bytes can change how it is read.
fn take_on<I: Source>(stream: &mut Stream, input: &mut I, dots: &mut Dots) -> Result<(), NoMemory>
    requires { MayTake stream.old }
    ensures goes { OnOk result (Goes (I.left input.old) (I.left input.new) stream.old stream.new
        (λ taken. Unit {0})) }
    ensures farther { OnOk result (IsFarther stream.old stream.new) }
    ensures count { IsCounted (I.faults input.old) (I.faults input.new) stream.old stream.new }
    ensures through { I.through input.new ≡ I.through input.old }
{
    'pieces: loop {
        stream.take_more(input)?;
        if dots.reach(stream.bytes()) || !may_change(stream) {
            return Ok(());
        }
    }
}

/// The term that begins with the first byte that is held, or the end there. What is taken is read three times
/// at most: a piece of it, up to the first dot that can end the term, and the whole window.
fn next_thing<I: Source>(
    alloc: Global,
    syntax: Syntax,
    symbols: &mut Symbols,
    stream: &mut Stream,
    input: &mut I,
) -> Result<Next, NoMemory>
    ensures goes { IfOk result (λ next. Goes (I.left input.old) (I.left input.new) stream.old stream.new
        (IsThing syntax (names_of symbols.old) symbols.new stream.old stream.new next)) }
    ensures live { IfOk result (IsLiveNext symbols.new) }
    ensures keeps { Keeps symbols.old symbols.new }
    ensures count { IsCounted (I.faults input.old) (I.faults input.new) stream.old stream.new }
    ensures through { I.through input.new ≡ I.through input.old }
{
    let mut dots = Dots::new();
    'tries: loop {
        match read_term(alloc, syntax, symbols, window(stream), 0) {
            Ok((term, len)) => {
                let place = stream.place() + len as u64;
                stream.drop_to(place);
                return Ok(Next::Term(term));
            }
            Err(ReadError::NoMemory) => return Err(NoMemory),
            Err(ReadError::Refused(fault)) => {
                if !may_change(stream) {
                    return Ok(Next::End(end_at(stream, fault)));
                }
            }
        }
        dots.reach(stream.bytes());
        take_on(stream, input, &mut dots)?;
    }
}

/// What comes next in an input: the next term, whose bytes are given up, or the end. As many bytes are taken
/// as are needed for it, and at most a piece more.
pub fn next_term<I: Source>(
    alloc: Global,
    syntax: Syntax,
    symbols: &mut Symbols,
    stream: &mut Stream,
    input: &mut I,
) -> Result<Next, NoMemory>
    requires { stream.old.place ≤ stream.old.limit }
    ensures goes { IfOk result (λ next. Goes (I.left input.old) (I.left input.new) stream.old stream.new
        (ComesNext syntax (names_of symbols.old) symbols.new stream.old stream.new (I.left input.new) next)) }
    ensures live { IfOk result (IsLiveNext symbols.new) }
    ensures keeps { Keeps symbols.old symbols.new }
    ensures count { IsCounted (I.faults input.old) (I.faults input.new) stream.old stream.new }
    ensures through { I.through input.new ≡ I.through input.old }
{
    symbols.has_one_number_each();
    if skip_gap(stream, input)? {
        next_thing(alloc, syntax, symbols, stream, input)
    } else {
        Ok(Next::End(end_behind(stream)))
    }
}
