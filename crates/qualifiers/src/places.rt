// The places of an equation's qualifiers, by their variables.
ghost use Rattle.std.specs.Prelude.{◌≡◌, ◌↔◌, ℕ, Some, IfOk, map, nat_eq};
ghost use Rattle.std.specs.List.{IsDistinct};
ghost use Rattle.indexmap.specs.IndexMap.{get};
ghost use Rattle.qualifiers.specs.Leading.{variable_of, IsPlaceOf};

use def_file::Qualifiers;
use eq_base::NoMemory;
use indexmap::IndexMap;
use std::alloc::Global;

/// The place of each variable's qualifier in the list, if it has one. A look-up takes constant time on average.
pub fn places_of(alloc: Global, qualifiers: &Qualifiers) -> Result<IndexMap<u32, usize>, NoMemory>
    requires { IsDistinct nat_eq (map variable_of qualifiers.now) }
    ensures { IfOk result (λ places. (x place : ℕ) → (get nat_eq places x ≡ Some place)
        ↔ IsPlaceOf qualifiers.now x place) }
{
    let mut places = IndexMap::new(alloc);
    for place in 0..qualifiers.len() {
        places.insert(qualifiers.get(place).variable, place)?;
    }
    Ok(places)
}
