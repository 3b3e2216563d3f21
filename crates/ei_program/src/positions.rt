// Positions of patterns.
ghost use Rattle.std.specs.Prelude.{◌≡◌, ◌+◌, ◌-◌, ◌<◌, ◌≤◌, ◌∷◌, IfOk, map};
ghost use Rattle.eq_base.specs.Tree.{size, nth_subtree, nth_position};

use eq_base::{NoMemory, Pattern};
use std::alloc::Global;

/// The numbers of the arguments on the way to a node, counted from 1. Linear in the nodes before it; fails
/// when memory runs out.
pub fn argument_numbers(
    alloc: Global,
    pattern: &Pattern,
    node: usize,
) -> Result<Vec<usize>, NoMemory>
    requires { node < size pattern.now }
    ensures { IfOk result (λ numbers. numbers.items ≡ map (λ i. i + 1) (nth_position pattern.now node)) }
{
    let mut numbers = Vec::new(alloc);
    let mut at = 0;
    while at < node {
        let (argument, number) = argument_toward(pattern, at, node);
        numbers.push(number)?;
        at = argument;
    }
    Ok(numbers)
}

// The argument of a node in which a node below it lies, and its number, counted from 1.
fn argument_toward(pattern: &Pattern, at: usize, node: usize) -> (usize, usize)
    requires below { at < node }
    requires at { at < size pattern.now }
    requires within { node < at + size (nth_subtree pattern.now at) }
    ensures after { at < result.0 }
    ensures before { result.0 ≤ node }
    ensures within { node < result.0 + size (nth_subtree pattern.now result.0) }
    ensures way { map (λ i. i + 1) (nth_position (nth_subtree pattern.now at) (node - at)) ≡ result.1
        ∷ map (λ i. i + 1) (nth_position (nth_subtree pattern.now result.0) (node - result.0)) }
{
    let mut argument = at + 1;
    let mut number = 1;
    while pattern.end_of(argument) <= node {
        argument = pattern.end_of(argument);
        number += 1;
    }
    (argument, number)
}
