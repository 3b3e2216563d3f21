// What the values of operations mean: laws of all operands, each the contract of a function that does
// nothing.
ghost use Rattle.std.specs.Prelude.{◌≡◌, ◌≢◌, ◌↔◌, ℤ, pos, Some, None};
ghost use Rattle.eq_base.specs.ReadHead.{numeral};
ghost use Rattle.eq_base.specs.Operations.{of_numerals};
ghost use Rattle.eq_base.specs.declared.rules.Op.TheVariants.{DivInt, ModInt};
ghost use Rattle.builtin.specs.Division.{IsDivision};

/// The values of the two divisions are the quotient and the remainder of Euclid, and no others: two
/// numbers divide so exactly where they are these values. There are such by every number but 0.
pub fn division_is_of_euclid()
    ensures exact { (a b q r : ℤ) →
        IsDivision a b q r
        ↔ ((of_numerals DivInt a b ≡ Some (numeral q)) × (of_numerals ModInt a b ≡ Some (numeral r))) }
    ensures found { (a b : ℤ) → b ≢ pos 0 → (q : ℤ) × (r : ℤ) × IsDivision a b q r }
    ensures none { (a : ℤ) → (of_numerals DivInt a (pos 0) ≡ None) × (of_numerals ModInt a (pos 0) ≡ None) }
{}
