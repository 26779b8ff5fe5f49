//! Whether terms and numbers are such as the calls of specifications ask for.

ghost use Rattle.std.specs.Prelude.{◌≡◌, ◌<◌, ◌^◌, true, Some, length, map, slice_get, slice_index_or};
ghost use Rattle.hk_symspec.specs.Standing.{AreKeyTerms};
ghost use Rattle.hk_symspec.specs.Steps.{AreArgumentTerms};
ghost use Rattle.hk_term.specs.Shape.{width};
ghost use Rattle.spec_tree.specs.Plain as plain;
ghost use Rattle.spec_tree.specs.Shapes.{AreNumbers};
ghost use Rattle.spec_tree.specs.Sorted.{field_sorts, no_field};
ghost use Rattle.spec_tree.specs.View.{view_key, view_spec};

use hk_symvalue::words::greatest;
use hk_term::{TermId, Terms};
use spec_tree::{Field, Sort, Spec};

/// Whether a term stands in the list, at a width.
fn is_word(t: &Terms, bits: u32, a: TermId) -> bool
    ensures { result ≡ true → (a < length t.now) × (width t.now a ≡ bits) }
{
    a.place() < t.len() && t.width(a) == bits
}

/// Whether there is one term for each width, of that width.
fn are_arguments(t: &Terms, widths: &[u32], terms: &[TermId]) -> bool
    ensures { result ≡ true → AreArgumentTerms t.now widths.now terms.now }
{
    match widths {
        [] => terms.is_empty(),
        [bits, others @ ..] => match terms {
            [] => false,
            [a, rest @ ..] => is_word(t, *bits, *a) && are_arguments(t, others, rest),
        },
    }
}

/// Whether there is one term for each key, of its width.
fn are_indices(t: &Terms, keys: &[Sort], index: &[TermId]) -> bool
    ensures { result ≡ true → AreKeyTerms t.now (map view_key keys.now) index.now }
{
    match keys {
        [] => index.is_empty(),
        [key, others @ ..] => match index {
            [] => false,
            [a, rest @ ..] => is_word(t, key.width, *a) && are_indices(t, others, rest),
        },
    }
}

/// Whether a number has a width.
pub fn is_below(bits: u32, number: u64) -> bool
    ensures { result ≡ true → number < 2 ^ bits }
{
    if bits == 0 || bits > 64 {
        return false;
    }
    let most = greatest(bits);
    number <= most
}

/// Whether there is one number for each width, below 2 to it.
fn are_numbers(widths: &[u32], numbers: &[u64]) -> bool
    ensures { result ≡ true → AreNumbers widths.now numbers.now }
{
    match widths {
        [] => numbers.is_empty(),
        [bits, others @ ..] => match numbers {
            [] => false,
            [number, rest @ ..] => is_below(*bits, *number) && are_numbers(others, rest),
        },
    }
}

/// The field with this place.
fn field_at(spec: &Spec, field: u32) -> &Field
    requires { field < length spec.now.fields }
    ensures { slice_get spec.now.fields field ≡ Some result.now }
{
    &spec.fields.as_slice()[field as usize]
}

/// The sorts of a field's keys.
fn keys_of(spec: &Spec, field: u32) -> &[Sort]
    requires { field < length spec.now.fields }
    ensures { map view_key result.now ≡ (slice_index_or (field_sorts (view_spec spec.now)) field no_field).keys }
{
    field_at(spec, field).keys.as_slice()
}

/// Whether there is one term for each key of the field with this place, of its width.
pub fn are_indices_of(t: &Terms, spec: &Spec, field: u32, index: &[TermId]) -> bool
    requires { field < length spec.now.fields }
    ensures { result ≡ true → AreKeyTerms t.now (slice_index_or (field_sorts (view_spec spec.now)) field no_field).keys index.now }
{
    are_indices(t, keys_of(spec, field), index)
}

/// Whether there is one term for each argument of the transition with this place, of its width.
pub fn are_arguments_of(t: &Terms, spec: &Spec, h: u32, args: &[TermId]) -> bool
    requires { h < length spec.now.transitions }
    ensures { result ≡ true → (u : plain.Transition) → slice_get (view_spec spec.now).transitions h ≡ Some u → AreArgumentTerms t.now u.widths args.now }
{
    let transition = &spec.transitions.as_slice()[h as usize];
    are_arguments(t, transition.widths.as_slice(), args)
}

/// Whether there is one number for each argument of the transition with this place, below 2 to its width.
pub fn are_numbers_of(spec: &Spec, h: u32, args: &[u64]) -> bool
    requires { h < length spec.now.transitions }
    ensures { result ≡ true → (u : plain.Transition) → slice_get (view_spec spec.now).transitions h ≡ Some u → AreNumbers u.widths args.now }
{
    let transition = &spec.transitions.as_slice()[h as usize];
    are_numbers(transition.widths.as_slice(), args)
}
