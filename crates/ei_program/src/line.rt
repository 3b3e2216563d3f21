// The line of a term.
ghost use Rattle.std.specs.Prelude.{◌≡◌, ◌<◌, ◌++◌, IfOk};
ghost use Rattle.eq_base.specs.Tree.{size, nth_subtree};
ghost use Rattle.symbol_table.specs.Table.{Keeps, names_of};
ghost use Rattle.symbol_table.specs.Reading.{read, read_system, IsLiveTerm};
ghost use Rattle.orthogonal_laws.specs.Past.{HasNoPast};
ghost use Rattle.term_input.specs.Printing.{print};
ghost use Rattle.ei_program.specs.Definitions.{definitions_of};
ghost use Rattle.ei_program.specs.Loading.{IsReady};
ghost use Rattle.ei_program.specs.Lines.{ended};
ghost use Rattle.ei_program.specs.Stepping.{IsFormText, IsLineText};

use crate::ready::Ready;
use crate::settings::Settings;
use eq_base::{Flat, NoMemory};
use orthogonal_laws::{PlainEnd, first_past, plain_run};
use std::alloc::Global;
use term_input::write_term;

/// The line that prints the part of a term at a node, behind these bytes.
fn printed(
    alloc: Global,
    ready: &Ready,
    settings: &Settings,
    front: &[u8],
    term: &Flat,
    node: usize,
) -> Result<Vec<u8>, NoMemory>
    requires live { IsLiveTerm ready.now.symbols term.now }
    requires node { node < size term.now }
    ensures { IfOk result (λ text. text.items ≡ ended (front.now ++ print settings.now.syntax
        (names_of ready.now.symbols) (nth_subtree (read ready.now.symbols term.now) node))) }
{
    let mut text = Vec::new(alloc);
    text.extend_from_slice(front)?;
    write_term(
        alloc,
        settings.syntax,
        &ready.symbols,
        term,
        node,
        &mut text,
    )?;
    text.push(b'\n')?;
    Ok(text)
}

/// The line of a normal form without a part past the limits: its print, or that it is too large.
fn line_of_clean(
    alloc: Global,
    ready: &Ready,
    settings: &Settings,
    form: &Flat,
) -> Result<Vec<u8>, NoMemory>
    requires live { IsLiveTerm ready.now.symbols form.now }
    requires clean { HasNoPast (read_system ready.now.symbols ready.now.regular)
        (read ready.now.symbols form.now) }
    ensures { IfOk result (λ text. IsFormText settings.now (definitions_of ready.now)
        (read ready.now.symbols form.now) text.items) }
{
    if form.len() as u64 > settings.most {
        let text = b"? large\n".to_vec(alloc)?;
        return Ok(text);
    }
    printed(alloc, ready, settings, b"", form, 0)
}

/// The line of a normal form: its first part whose value is past the limits, or else its print, or that it is
/// too large.
fn line_of_form(
    alloc: Global,
    ready: &Ready,
    settings: &Settings,
    form: &Flat,
) -> Result<Vec<u8>, NoMemory>
    requires ready { IsReady ready.now }
    requires live { IsLiveTerm ready.now.symbols form.now }
    ensures { IfOk result (λ text. IsFormText settings.now (definitions_of ready.now)
        (read ready.now.symbols form.now) text.items) }
{
    match first_past(&ready.regular, &ready.symbols, form) {
        Some(node) => printed(alloc, ready, settings, b"? past ", form, node),
        None => line_of_clean(alloc, ready, settings, form),
    }
}

/// The line that answers a term, with its end.
pub fn line_of(
    alloc: Global,
    ready: &mut Ready,
    settings: &Settings,
    term: Flat,
) -> Result<Vec<u8>, NoMemory>
    requires ready { IsReady ready.old }
    requires live { IsLiveTerm ready.old.symbols term }
    ensures line { IfOk result (λ text. IsLineText settings.now (definitions_of ready.old)
        (read ready.old.symbols term) text.items) }
    ensures same { ready.new.regular ≡ ready.old.regular }
    ensures keeps { Keeps ready.old.symbols ready.new.symbols }
{
    ready.symbols.has_one_number_each();
    let budget = settings.budget;
    match plain_run(alloc, &ready.regular, &mut ready.symbols, term, budget)? {
        PlainEnd::Normal(form, _) => line_of_form(alloc, ready, settings, &form),
        PlainEnd::Spent(_) => {
            let text = format!(in alloc; "? spent {budget}\n")?;
            Ok(text.into_bytes())
        }
    }
}
