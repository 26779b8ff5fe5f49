//! The numbers of a switch.

ghost use Rattle.std.specs.Prelude.{◌≡◌, ◌≤◌, ◌&&◌, map, IfOk};
ghost use Rattle.std.specs.List.{list_all};
ghost use Rattle.ir_typing.specs.Fits as definition;

use crate::distinct::all_differ;
use crate::literal::{fits_width, modulo};
use ir_ast::{CaseList, Name};
use std::alloc::{AllocError, Global};

/// Whether each number is one of this width in bits.
fn are_in_width(width: u32, cases: &[(i128, Name)]) -> bool
    ensures { result ≡ list_all (λ c. definition.fits_width width c.0) cases.now }
{
    'each: for case in cases {
        if !fits_width(width, case.0) {
            return false;
        }
    }
    true
}

/// The values of the numbers modulo 2 to this width in bits.
fn case_values(alloc: Global, width: u32, cases: &[(i128, Name)]) -> Result<Vec<u64>, AllocError>
    requires { width ≤ 64 }
    ensures { IfOk result (λ values. values.items ≡ map (λ c. definition.modulo width c.0) cases.now) }
{
    let mut values = Vec::new(alloc);
    'each: for case in cases {
        values.push(modulo(width, case.0))?;
    }
    Ok(values)
}

/// Whether the numbers of a switch are of its width, and none is given twice. It takes time in the order of n log n.
pub fn cases_fit(alloc: Global, width: u32, cases: &CaseList) -> Result<bool, AllocError>
    requires { width ≤ 64 }
    ensures { IfOk result (λ r. r ≡ (list_all (λ c. definition.fits_width width c.0) cases.now.items.items && definition.all_differ (map (λ c. definition.modulo width c.0) cases.now.items.items))) }
{
    let items = cases.items.as_slice();
    if !are_in_width(width, items) {
        return Ok(false);
    }
    let values = case_values(alloc, width, items)?;
    let differ = all_differ(alloc, values.as_slice())?;
    Ok(differ)
}
