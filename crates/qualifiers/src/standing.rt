// Variables that stand for others: those whose only alternative is another variable.
ghost use Rattle.std.specs.Prelude.{◌≡◌, ◌<◌, ℕ, List, [], length, map, nat_eq, slice_index, All, IfOk, IfSome};
ghost use Rattle.std.specs.List.{AllByRecursion, IsDistinct};
ghost use Rattle.def_file.specs.declared.definitions.Qualifier.{Qualifier as QualifierValue};
ghost use Rattle.qualifiers.specs.Leading.{ArePatterns, variable_of};
ghost use Rattle.qualifiers.specs.Standing.{StandsFor, ArePlaces, AreTargets};

use def_file::Qualifiers;
use eq_base::{Cell, NoMemory};
use indexmap::IndexMap;
use std::alloc::Global;

/// The place of the variable that is the only alternative here, if it has alternatives itself.
fn next_place(qualifiers: &Qualifiers, places: &IndexMap<u32, usize>, place: usize) -> Option<usize>
    requires distinct { IsDistinct nat_eq (map variable_of qualifiers.now) }
    requires patterns { ArePatterns qualifiers.now }
    requires places { ArePlaces qualifiers.now places.now }
    requires place { place < length qualifiers.now }
    ensures { IfSome result (StandsFor qualifiers.now place) }
{
    let choices = &qualifiers.get(place).choices;
    if choices.len() != 1 {
        return None;
    }
    let Cell::Var(variable) = choices.get(0).cell(0) else {
        return None;
    };
    let next = *places.get(&variable)?;
    if qualifiers.get(next).choices.len() == 0 {
        return None;
    }
    Some(next)
}

/// Goes from the place as far as one stands for another, and lists the places on the way. It answers the last one.
fn follow(
    qualifiers: &Qualifiers,
    places: &IndexMap<u32, usize>,
    targets: &[usize],
    start: usize,
    way: &mut Vec<usize>,
) -> Result<usize, NoMemory>
    requires distinct { IsDistinct nat_eq (map variable_of qualifiers.now) }
    requires patterns { ArePatterns qualifiers.now }
    requires places { ArePlaces qualifiers.now places.now }
    requires targets { AreTargets qualifiers.now targets.now }
    requires start { start < length qualifiers.now }
    requires way { way.old.items ≡ [] }
    ensures { IfOk result (λ last. AllByRecursion (λ i. StandsFor qualifiers.now i last) way.new.items) }
{
    let mut last = start;
    for _ in 0..qualifiers.len() {
        way.push(last)?;
        let Some(next) = next_place(qualifiers, places, last) else {
            return Ok(last);
        };
        last = targets[next];
    }
    Ok(last)
}

/// Lets each place on the way stand for the last one.
fn lead(targets: &mut [usize], way: &[usize], last: usize)
    requires { All (λ i. i < length targets.old) way.now }
    ensures { (qs : List QualifierValue) → AreTargets qs targets.old
        → AllByRecursion (λ i. StandsFor qs i last) way.now → AreTargets qs targets.new }
{
    for place in way {
        targets[*place] = last;
    }
}

/// So many numbers, each at its own place.
fn numbers(alloc: Global, count: usize) -> Result<Vec<usize>, NoMemory>
    ensures len { IfOk result (λ numbers. length numbers.items ≡ count) }
    ensures each { IfOk result (λ numbers. (i : ℕ) → i < count → slice_index numbers.items i ≡ i) }
{
    let mut numbers = Vec::new(alloc);
    for i in 0..count {
        numbers.push(i)?;
    }
    Ok(numbers)
}

/// For each place the last one that its variable stands for. Linear in the qualifiers.
pub fn targets_of(
    alloc: Global,
    qualifiers: &Qualifiers,
    places: &IndexMap<u32, usize>,
) -> Result<Vec<usize>, NoMemory>
    requires distinct { IsDistinct nat_eq (map variable_of qualifiers.now) }
    requires patterns { ArePatterns qualifiers.now }
    requires places { ArePlaces qualifiers.now places.now }
    ensures { IfOk result (λ targets. AreTargets qualifiers.now targets.items) }
{
    let mut targets = numbers(alloc, qualifiers.len())?;
    for start in 0..qualifiers.len() {
        let mut way = Vec::new(alloc);
        let last = follow(qualifiers, places, &targets, start, &mut way)?;
        lead(&mut targets, &way, last);
    }
    Ok(targets)
}
