//! How many bits the cases of an obligation have.

ghost use Rattle.std.specs.Prelude.{◌≡◌, ◌*◌, ◌+◌, ◌<◌, ◌^◌, ◌-◌, min, map, sum, sum_by, length, Some, slice_get, slice_index_or, All};
ghost use Rattle.ir_ast.specs.ProgramView.{view_module};
ghost use Rattle.ir_layout.specs.Layouts.{LayoutView, IsLayoutOf};
ghost use Rattle.ir_layout.specs.declared.object.Object.{Object};
ghost use Rattle.spec_tree.specs.declared.sort.Sort.{Sort};
ghost use Rattle.spec_tree.specs.Plain as plain;
ghost use Rattle.spec_tree.specs.Sorted.{IsNest, IsSize, IsFieldSort, IsWellSorted, key_sizes, product, sort_of};
ghost use Rattle.spec_tree.specs.View.{view_key, view_field, view_spec, size_of};
ghost use Rattle.hk_case.specs.Obligations as definition;

use hk_case::Obligation;
use ir_kernel::Kernel;
use ir_layout::Layout;
use spec_tree::{Field, Sort, Spec};

// The size of a key.
fn size_in(key: &Sort) -> u64
    ensures { result ≡ size_of key.now.size }
{
    match key.size {
        Some(size) => u64::from(size),
        None => 0,
    }
}

// The size of the key at a place.
fn size_at(keys: &[Sort], k: usize) -> u64
    requires { k < length keys.now }
    ensures { (d : Sort) → result ≡ size_of (slice_index_or keys.now k d).size }
{
    size_in(&keys[k])
}

/// How many entries a field with these keys has.
pub(crate) fn entries_in(keys: &[Sort]) -> u64
    requires some { All IsSize (key_sizes (map view_key keys.now)) }
    requires few { IsNest (key_sizes (map view_key keys.now)) }
    ensures { result ≡ product (key_sizes (map view_key keys.now)) }
{
    let mut all: u64 = 1;
    'each: for k in 0..keys.len() {
        all *= size_at(keys, k);
    }
    all
}

// The bits of a field's entries.
fn field_bits(field: &Field) -> u64
    requires { IsFieldSort (sort_of (view_field field.now)) }
    ensures { result ≡ definition.field_bits (view_field field.now) }
{
    entries_in(field.keys.as_slice()) * u64::from(field.width)
}

// The bits of all fields, or the largest number where there are more.
fn bits_of_fields(fields: &[Field]) -> u64
    requires { All (λ f. IsFieldSort (sort_of f)) (map view_field fields.now) }
    ensures { result ≡ min (sum_by definition.field_bits (map view_field fields.now)) (2 ^ 64 - 1) }
{
    let mut bits: u64 = 0;
    'each: for field in fields {
        bits = bits.saturating_add(field_bits(field));
    }
    bits
}

// The bits of an object.
fn object_bits(layout: &Layout, k: u32) -> u64
    requires { k < length layout.now.objects }
    ensures { (d : Object) → result ≡ min (definition.object_bits (slice_index_or layout.now.objects k d)) (2 ^ 64 - 1) }
{
    if layout.is_constant(k) {
        0
    } else {
        layout.object_size(k).saturating_mul(8)
    }
}

// The bits of all mutable objects, or the largest number where there are more.
fn bits_of_objects(layout: &Layout) -> u64
    ensures { result ≡ min (sum_by definition.object_bits layout.now.objects) (2 ^ 64 - 1) }
{
    let mut bits: u64 = 0;
    'each: for k in 0..layout.objects() {
        bits = bits.saturating_add(object_bits(layout, k));
    }
    bits
}

// The bits of all arguments, or the largest number where there are more.
fn bits_of_arguments(widths: &[u32]) -> u64
    ensures { result ≡ min (sum widths.now) (2 ^ 64 - 1) }
{
    let mut bits: u64 = 0;
    'each: for width in widths {
        bits = bits.saturating_add(u64::from(*width));
    }
    bits
}

// The bits of the states that an obligation speaks of, or the largest number where there are more.
fn bits_of_states(layout: &Layout, fields: &[Field], o: Obligation) -> u64
    requires { All (λ f. IsFieldSort (sort_of f)) (map view_field fields.now) }
    ensures { (s : plain.Spec) (t : plain.Transition) → s.fields ≡ map view_field fields.now → min (result + sum t.widths) (2 ^ 64 - 1) ≡ min (definition.case_bits layout.now.objects s t o) (2 ^ 64 - 1) }
{
    match o {
        Obligation::Property(_) => bits_of_fields(fields),
        Obligation::Undefined => bits_of_objects(layout),
        Obligation::Invariant(_) => bits_of_objects(layout),
        Obligation::State(_) => bits_of_objects(layout),
        Obligation::ResultValue => bits_of_objects(layout),
    }
}

/// How many bits a case of an obligation has: those of the mutable objects or of the fields' entries, and those of the arguments. Where
/// there are 2^64 or more, it is the largest number. It takes no memory.
///
/// The conditions are a well-sorted specification and a transition that exists.
pub fn case_bits(kernel: &Kernel, spec: &Spec, h: u32, o: Obligation) -> u64
    requires spec { IsWellSorted (view_spec spec.now) }
    requires there { h < length spec.now.transitions }
    ensures { (l : LayoutView) (t : plain.Transition) → IsLayoutOf (view_module kernel.now) l → slice_get (view_spec spec.now).transitions h ≡ Some t →
        result ≡ min (definition.case_bits l.objects (view_spec spec.now) t o) (2 ^ 64 - 1) }
{
    // For the proof: the kernel's module is checked, so all its layouts have the same objects.
    let _checked = kernel.checked();
    let transition = &spec.transitions.as_slice()[h as usize];
    let states = bits_of_states(kernel.layout(), spec.fields.as_slice(), o);
    states.saturating_add(bits_of_arguments(transition.widths.as_slice()))
}
