// Which qualifiers lead to which: to those of the variables in their alternatives.
ghost use Rattle.std.specs.Prelude.{◌≡◌, ◌↔◌, ◌⊎◌, ℕ, length, nat_eq, Contains, IfOk, OnOk};
ghost use Rattle.std.specs.List.{AllByRecursion, flat_map};
ghost use Rattle.indexmap.specs.IndexMap.{get};
ghost use Rattle.eq_base.specs.Pattern.{variables};
ghost use Rattle.eq_base.specs.Testing.{IsPattern};
ghost use Rattle.qualifiers.specs.Leading.{ArePatterns, ArePlacesOf, IsPlaceAmong, IsGraphOf};

use def_file::{Choices, Qualifiers};
use eq_base::{NoMemory, Pattern};
use indexmap::IndexMap;
use std::alloc::Global;

/// Adds the places of the pattern's variables.
fn add_followers(
    places: &IndexMap<u32, usize>,
    pattern: &Pattern,
    followers: &mut Vec<usize>,
) -> Result<(), NoMemory>
    requires { IsPattern pattern.now }
    ensures { OnOk result ((j : ℕ) → Contains followers.new.items j
        ↔ (Contains followers.old.items j ⊎ IsPlaceAmong (get nat_eq places.now) (variables pattern.now) j)) }
{
    for at in 0..pattern.len() {
        let Some(variable) = pattern.cell(at).variable() else {
            continue;
        };
        let Some(place) = places.get(&variable) else {
            continue;
        };
        followers.push(*place)?;
    }
    Ok(())
}

/// The places of the alternatives' variables.
fn followers_of(
    alloc: Global,
    places: &IndexMap<u32, usize>,
    choices: &Choices,
) -> Result<Vec<usize>, NoMemory>
    requires { AllByRecursion IsPattern choices.now }
    ensures { IfOk result (λ followers. (j : ℕ) → Contains followers.items j
        ↔ IsPlaceAmong (get nat_eq places.now) (flat_map variables choices.now) j) }
{
    let mut followers = Vec::new(alloc);
    for i in 0..choices.len() {
        add_followers(places, choices.get(i), &mut followers)?;
    }
    Ok(followers)
}

/// The places that follow each qualifier: those of the qualifiers of the variables in its alternatives. Linear in
/// the cells of the alternatives.
pub fn graph_of(
    alloc: Global,
    qualifiers: &Qualifiers,
    places: &IndexMap<u32, usize>,
) -> Result<Vec<Vec<usize>>, NoMemory>
    requires places { ArePlacesOf qualifiers.now (get nat_eq places.now) }
    requires patterns { ArePatterns qualifiers.now }
    ensures len { IfOk result (λ graph. length graph.items ≡ length qualifiers.now) }
    ensures edges { IfOk result (λ graph. IsGraphOf qualifiers.now graph.items) }
{
    let mut graph = Vec::new(alloc);
    for i in 0..qualifiers.len() {
        let followers = followers_of(alloc, places, &qualifiers.get(i).choices)?;
        graph.push(followers)?;
    }
    Ok(graph)
}
