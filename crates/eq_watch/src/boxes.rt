// Some watches in boxes, of which some are turned on.
ghost use Rattle.std.specs.Prelude.{◌≡◌, ◌++◌, [], ◌∷◌, map, length, vec_len, OnOk, OnErr, IfOk, IfSome, is_some};
ghost use Rattle.eq_watch.specs.Watching.{Grew, moved, cleared, reported};
ghost use Rattle.eq_watch.specs.Telling.{told, cleared_each, reports, ToldFronts, is_turned_on, is_watch_name};

use crate::event::Event;
use crate::watch::Watch;
use eq_base::NoMemory;
use std::alloc::Global;

/// Tells a watch of a replacement.
fn tell_one(watch: &mut Box<dyn Watch>, event: Event) -> Result<(), NoMemory>
    ensures ok { OnOk result (state watch.new ≡ moved (state watch.old) event) }
    ensures err { OnErr result (state watch.new ≡ state watch.old) }
{
    watch.seen(event)
}

/// Tells each watch that is turned on of a replacement, in their order.
///
/// # Errors
///
/// Out of memory; some of these watches are then as they were.
pub fn tell(watch: &mut Vec<Box<dyn Watch>>, on: &[bool], event: Event) -> Result<(), NoMemory>
    requires { length on.now ≡ vec_len watch.old }
    ensures ok { OnOk result
        (map state watch.new.items ≡ told on.now (event ∷ []) (map state watch.old.items)) }
    ensures count { vec_len watch.new ≡ vec_len watch.old }
    ensures err { OnErr result
        (ToldFronts on.now (event ∷ []) (map state watch.old.items) (map state watch.new.items)) }
{
    for (i, is_told) in on.iter().enumerate() {
        if *is_told {
            tell_one(&mut watch[i], event)?;
        }
    }
    Ok(())
}

/// Clears a watch.
fn clear_one(watch: &mut Box<dyn Watch>)
    ensures { state watch.new ≡ cleared (state watch.old) }
{
    watch.clear();
}

/// Clears each watch that is turned on.
pub fn clear_each(watch: &mut Vec<Box<dyn Watch>>, on: &[bool])
    requires { length on.now ≡ vec_len watch.old }
    ensures cleared { map state watch.new.items ≡ cleared_each on.now (map state watch.old.items) }
    ensures count { vec_len watch.new ≡ vec_len watch.old }
{
    for (i, is_cleared) in on.iter().enumerate() {
        if *is_cleared {
            clear_one(&mut watch[i]);
        }
    }
}

/// Appends the report of a watch.
fn report_one(watch: &Box<dyn Watch>, into: &mut Vec<u8>) -> Result<(), NoMemory>
    ensures ok { OnOk result (into.new.items ≡ into.old.items ++ reported (state watch.now)) }
    ensures err { OnErr result (Grew into.old.items into.new.items) }
{
    watch.report(into)
}

/// Appends the reports of the watches that are turned on, in their order.
///
/// # Errors
///
/// Out of memory; the old bytes are then the first of `into`.
pub fn report_each(
    watch: &Vec<Box<dyn Watch>>,
    on: &[bool],
    into: &mut Vec<u8>,
) -> Result<(), NoMemory>
    requires { length on.now ≡ vec_len watch.now }
    ensures ok { OnOk result (into.new.items ≡ into.old.items ++ reports on.now (map state watch.now.items)) }
    ensures err { OnErr result (Grew into.old.items into.new.items) }
{
    for (i, is_reported) in on.iter().enumerate() {
        if *is_reported {
            report_one(&watch[i], into)?;
        }
    }
    Ok(())
}

/// Whether a watch answers yes to a name.
fn answers(watch: &Box<dyn Watch>, name: &str) -> bool
    ensures { result ≡ (state watch.now).is_name name.now }
{
    watch.name_is(name)
}

/// For each watch whether a name turns it on: `all` turns on every one. `None` where the name is another one
/// to which no watch answers yes.
pub fn named(
    alloc: Global,
    watch: &Vec<Box<dyn Watch>>,
    name: &str,
) -> Result<Option<Vec<bool>>, NoMemory>
    ensures count { IfOk result (λ found. IfSome found (λ on. vec_len on ≡ vec_len watch.now)) }
    ensures known { IfOk result
        (λ found. is_some found ≡ is_watch_name name.now (map state watch.now.items)) }
    ensures on { IfOk result (λ found. IfSome found
        (λ on. on.items ≡ map (is_turned_on name.now) (map state watch.now.items))) }
{
    let is_all = name == "all";
    let mut is_known = is_all;
    let mut on = Vec::new(alloc);
    for one in watch {
        let is_named = is_all || answers(one, name);
        is_known = is_known || is_named;
        on.push(is_named)?;
    }
    Ok(if is_known { Some(on) } else { None })
}
