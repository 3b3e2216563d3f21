// Lists of equations that keep all restrictions.
ghost use Rattle.std.specs.Prelude.{◌≡◌, IfOk, IfErr};
ghost use Rattle.regularity.specs.WellFormed.{AreWellFormed};
ghost use Rattle.regularity.specs.Listing.{Lists};
ghost use Rattle.sequentiality.specs.Violations.{IsViolation};
ghost use Rattle.sequentiality.specs.Regular.{AreRegular, IsRefused};

use crate::order::breaks;
use eq_base::{NoMemory, Rules};
use regularity::{Breaks, check_single, overlaps};
use std::alloc::Global;
use std::marker::Model;

/// Why equations are not admitted.
#[derive(Drop)]
pub enum AdmitError {
    /// They break restrictions: these breaks, in order, and the equations.
    Broken(Breaks, Rules),
    /// Out of memory.
    NoMemory,
}

/// Equations that keep all restrictions, with the classes of their file.
#[derive(Drop)]
pub struct Regular {
    rules: Rules,
}

impl Model for Regular {
    ghost use Rattle.eq_base.specs.contracts.rules.Rules as rules_type;
    ghost use Rattle.eq_base.specs.RuleList.{RuleList};
    ghost use Rattle.sequentiality.specs.Regular.{AreRegular};

    ghost Value = { RuleList };

    ghost coded = { rules_type.the_row.coded };

    ghost view = { λ r. r.rules };

    ghost invariant = { λ r. AreRegular r.rules };
}

impl Regular {
    /// The equations, where they keep all restrictions.
    ///
    /// # Errors
    ///
    /// The breaks in order, with the equations; or out of memory, and the equations are dropped.
    pub fn admit(alloc: Global, rules: Rules) -> Result<Regular, AdmitError>
        requires { AreWellFormed rules }
        ensures ok { IfOk result (λ regular. regular ≡ rules) }
        ensures regular { IfOk result AreRegular }
        ensures err { IfErr result (IsRefused rules) }
    {
        let Ok(found) = violations(alloc, &rules) else {
            return Err(AdmitError::NoMemory);
        };
        if found.len() > 0 {
            return Err(AdmitError::Broken(found, rules));
        }
        Ok(Regular { rules })
    }

    /// The equations.
    pub fn rules(&self) -> &Rules
        ensures value { result.now ≡ self.now }
        ensures regular { AreRegular self.now }
    {
        &self.rules
    }
}

// All breaks, in order.
fn violations(alloc: Global, rules: &Rules) -> Result<Breaks, NoMemory>
    requires { AreWellFormed rules.now }
    ensures { IfOk result (λ found. Lists (IsViolation rules.now) found) }
{
    let mut found = check_single(alloc, rules)?;
    let pairs = overlaps(alloc, rules)?;
    found.append(&pairs)?;
    let last = breaks(alloc, rules, &found)?;
    found.append(&last)?;
    Ok(found)
}
