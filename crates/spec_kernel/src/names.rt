//! What a specification may name of a kernel.
//!
//! A checked module and its layout come in once; globals and functions are then found by their names, and shapes are walked by their
//! numbers, each in constant time.

ghost use Rattle.std.specs.Prelude.{◌≡◌, ◌<◌, ◌^◌, ◌↔◌, ℕ, IsTrue, Some, length, map, slice_get, option_map, IfOk, IfSome};
ghost use Rattle.std.specs.List.{list_all};
ghost use Rattle.ir_ast.specs.ProgramView.{view_module};
ghost use Rattle.ir_layout.specs.Layouts.{IsLayoutOf};
ghost use Rattle.spec_names.specs.Kernel.{global_place, function_place, elements_of, part_of, bytes_of};
ghost use Rattle.spec_kernel.specs.View.{kernel_of};
ghost use Rattle.ir_measure.specs.Shaped.{IsSound};
ghost use Rattle.spec_kernel.specs.Firsts.{texts};
ghost use Rattle.spec_kernel.specs.Handlers as definition;
ghost use Rattle.spec_kernel.specs.Seen.{see_function, view_value, function_in, kernel_in, shape_at, shape_in, IsShape, IsKnown};
ghost use Rattle.spec_kernel.specs.Steps.{bytes_at, view_elements, view_part};
ghost use Rattle.spec_kernel.specs.Widths as widths;
ghost use Rattle.spec_kernel.specs.Widths.{HaveWidths};

use crate::firsts::{Firsts, function_places, global_places};
use crate::making::{function_rows, global_rows};
use crate::rows::{FunctionRow, GlobalRow, ValueType};
use crate::steps::{Elements, Part};
use ir_check::Checked;
use ir_layout::Layout;
use ir_measure::Shapes;
use std::alloc::{AllocError, Global};
use std::marker::Model;

/// What a specification may name of a kernel. Contracts see the rows that are kept, and the plain view that these stand for.
#[derive(Drop)]
pub struct KernelNames<'k> {
    shapes: Shapes,
    globals: Vec<GlobalRow<'k>>,
    functions: Vec<FunctionRow<'k>>,
    global_places: Firsts<'k>,
    function_places: Firsts<'k>,
}

impl<'k> Model for KernelNames<'k> {
    ghost use Rattle.spec_kernel.specs.Seen.{Seen, seen_of, IsKept};

    ghost Value = { Seen };

    ghost view = { λ n. seen_of n.shapes n.globals.items n.functions.items };

    ghost invariant = { λ n. IsKept (seen_of n.shapes n.globals.items n.functions.items) n.global_places n.function_places };
}

/// The bytes of an integer of this width in bits, where memory has such integers.
fn bytes_of_width(width: u32) -> Option<u32>
    ensures { result ≡ bytes_at width }
{
    match width {
        8 | 16 | 32 | 64 => Some(width / 8),
        _ => None,
    }
}

/// What is kept of the global at a place.
fn global_at<'a, 'k>(globals: &'a [GlobalRow<'k>], place: u32) -> &'a GlobalRow<'k>
    requires { place < length globals.now }
    ensures { slice_get globals.now place ≡ Some result.now }
{
    &globals[place as usize]
}

/// What is kept of the function at a place.
fn function_at<'a, 'k>(functions: &'a [FunctionRow<'k>], place: u32) -> &'a FunctionRow<'k>
    requires { place < length functions.now }
    ensures { slice_get functions.now place ≡ Some result.now }
{
    &functions[place as usize]
}

/// Whether the integers that these functions take and give have 1 to 64 bits.
fn have_widths(functions: &[FunctionRow<'_>]) -> bool
    ensures { result ≡ list_all (λ r. widths.has_widths (function_in (see_function r))) functions.now }
{
    'each: for function in functions {
        if !function.has_widths() {
            return false;
        }
    }
    true
}

/// A field at this offset, where there is one.
fn part_at(offset: Option<u64>, shape: u32) -> Option<Part>
    ensures { result ≡ option_map (λ o. record { offset = o; shape = shape }) offset }
{
    match offset {
        Some(offset) => Some(Part { offset, shape }),
        None => None,
    }
}

/// The field of a struct, where there is one.
#[tactic(auto, using(crate::proofs::StepLaws::part_right, crate::proofs::StepLaws::part_known, crate::proofs::StepLaws::no_part_right))]
fn part_in(shapes: &Shapes, shape: u32, field: u64) -> Option<Part>
    requires shape { IsShape shapes.now shape }
    requires sound { IsSound shapes.now }
    ensures part { option_map (view_part shapes.now) result ≡ part_of field (shape_at shapes.now shape) }
    ensures known { IfSome result (λ p. IsShape shapes.now p.shape) }
{
    match shapes.field(shape, field) {
        Some(part) => part_at(shapes.offset_at(shape, field), part),
        None => None,
    }
}

impl<'k> KernelNames<'k> {
    /// What a specification may name of a checked kernel, of which this is the layout. It takes time linear in the module, but for the
    /// look-ups of whole types, which an ordered index answers.
    pub fn of(
        alloc: Global,
        checked: &'k Checked,
        layout: &Layout,
    ) -> Result<KernelNames<'k>, AllocError>
        requires { IsLayoutOf (view_module checked.now) layout.now }
        ensures { IfOk result (λ names. kernel_in names ≡ kernel_of (view_module checked.now)) }
    {
        let kernel = checked.module();
        let mut shapes = Shapes::of(alloc, &kernel.types)?;
        let functions = function_rows(alloc, &mut shapes, &kernel.types, &kernel.functions)?;
        let globals = global_rows(alloc, &mut shapes, kernel, layout)?;
        let global_places = global_places(alloc, globals.as_slice())?;
        let function_places = function_places(alloc, functions.as_slice())?;
        Ok(KernelNames {
            shapes,
            globals,
            functions,
            global_places,
            function_places,
        })
    }

    /// The place of the global of a name, which is the number of its object. It takes no memory.
    pub fn global(&self, name: &[u8]) -> Option<u32>
        ensures place { result ≡ global_place (kernel_in self.now) name.now }
        ensures within { IfSome result (λ g. g < length self.now.globals) }
    {
        self.global_places.get(name)
    }

    /// The number of the shape of the global at a place. It takes no memory.
    pub fn shape(&self, global: u32) -> u32
        requires { global < length self.now.globals }
        ensures shape { option_map (λ g. g.shape) (slice_get (kernel_in self.now).globals global) ≡ Some (shape_in self.now result) }
        ensures known { IsKnown self.now result }
    {
        global_at(&self.globals, global).shape
    }

    /// How many globals there are. It takes no memory.
    pub fn globals(&self) -> u32
        ensures { result ≡ length (kernel_in self.now).globals }
    {
        self.globals.len() as u32
    }

    /// The size of the global at a place, in bytes. It takes no memory.
    pub fn size(&self, global: u32) -> u64
        requires { global < length self.now.globals }
        ensures { option_map (λ g. g.size) (slice_get (kernel_in self.now).globals global) ≡ Some result }
    {
        global_at(&self.globals, global).size
    }

    /// The bytes of an integer; none where the shape is no integer. It takes no memory.
    pub fn bytes(&self, shape: u32) -> Option<u32>
        requires { IsKnown self.now shape }
        ensures { result ≡ bytes_of (shape_in self.now shape) }
    {
        match self.shapes.width(shape) {
            Some(width) => bytes_of_width(width),
            None => None,
        }
    }

    /// The elements of an array; none where the shape is no array. It takes no memory.
    pub fn elements(&self, shape: u32) -> Option<Elements>
        requires { IsKnown self.now shape }
        ensures elements { option_map (view_elements self.now.shapes) result ≡ elements_of (shape_in self.now shape) }
        ensures known { IfSome result (λ e. IsKnown self.now e.shape) }
    {
        match self.shapes.element(shape) {
            Some((count, element)) => Some(Elements {
                count,
                stride: self.shapes.size_of(element),
                shape: element,
            }),
            None => None,
        }
    }

    /// The field of a struct, counted from 0; none where the shape is no struct or has no such field. It takes no memory.
    pub fn part(&self, shape: u32, field: u64) -> Option<Part>
        requires { IsKnown self.now shape }
        ensures part { option_map (view_part self.now.shapes) result ≡ part_of field (shape_in self.now shape) }
        ensures known { IfSome result (λ p. IsKnown self.now p.shape) }
    {
        part_in(&self.shapes, shape, field)
    }

    /// The place of the function of a name. It takes no memory.
    pub fn function(&self, name: &[u8]) -> Option<u32>
        ensures place { result ≡ function_place (kernel_in self.now) name.now }
        ensures within { IfSome result (λ f. f < length self.now.functions) }
    {
        self.function_places.get(name)
    }

    /// How many functions there are. It takes no memory.
    pub fn functions(&self) -> u32
        ensures { result ≡ length (kernel_in self.now).functions }
    {
        self.functions.len() as u32
    }

    /// What is kept of the function at a place.
    fn row(&self, function: u32) -> &FunctionRow<'k>
        requires { function < length self.now.functions }
        ensures { slice_get (kernel_in self.now).functions function ≡ Some (function_in (see_function result.now)) }
    {
        function_at(&self.functions, function)
    }

    /// Whether the function at a place has a body and so many parameters. It takes no memory.
    pub fn has_body_with(&self, function: u32, parameters: usize) -> bool
        requires { function < length self.now.functions }
        ensures { result ≡ definition.has_body_with parameters (slice_get (kernel_in self.now).functions function) }
    {
        self.row(function).has_body_with(parameters)
    }

    /// Whether the function at a place takes or gives a pointer. It takes no memory.
    pub fn has_address(&self, function: u32) -> bool
        requires { function < length self.now.functions }
        ensures { result ≡ definition.has_address (slice_get (kernel_in self.now).functions function) }
    {
        self.row(function).has_address()
    }

    /// Whether the function at a place is declared, without a body, and void. It takes no memory.
    pub fn is_void_declared(&self, function: u32) -> bool
        requires { function < length self.now.functions }
        ensures { result ≡ definition.is_void_declared (slice_get (kernel_in self.now).functions function) }
    {
        self.row(function).is_void_declared()
    }

    /// The types of the parameters of the function at a place. It takes no memory.
    pub fn parameters(&self, function: u32) -> &[ValueType]
        requires { function < length self.now.functions }
        ensures { option_map (λ f. f.parameters) (slice_get (kernel_in self.now).functions function) ≡ Some (map view_value result.now) }
    {
        self.row(function).parameters.as_slice()
    }

    /// The type of the result of the function at a place; none for void. It takes no memory.
    pub fn result_type(&self, function: u32) -> Option<ValueType>
        requires { function < length self.now.functions }
        ensures { option_map (λ f. f.result) (slice_get (kernel_in self.now).functions function) ≡ Some (option_map view_value result) }
    {
        self.row(function).result
    }

    /// The name of the function at a place. It takes no memory.
    pub fn name(&self, function: u32) -> &'k [u8]
        requires { function < length self.now.functions }
        ensures { option_map (λ f. f.name) (slice_get (kernel_in self.now).functions function) ≡ Some result.now }
    {
        self.row(function).name
    }

    /// Whether the function at a place has a body. It takes no memory.
    pub fn is_defined(&self, function: u32) -> bool
        requires { function < length self.now.functions }
        ensures { option_map (λ f. f.defined) (slice_get (kernel_in self.now).functions function) ≡ Some result }
    {
        self.row(function).defined
    }

    /// The names of the functions that the function at a place calls, one for each call, in the order of the text. It takes no memory.
    pub fn calls(&self, function: u32) -> &[&'k [u8]]
        requires { function < length self.now.functions }
        ensures { option_map (λ f. f.calls) (slice_get (kernel_in self.now).functions function) ≡ Some (texts result.now) }
    {
        self.row(function).calls.as_slice()
    }

    /// Whether the integers that functions take and give have 1 to 64 bits. It takes no memory, and time linear in the functions.
    pub fn has_widths(&self) -> bool
        ensures { IsTrue result ↔ HaveWidths (kernel_in self.now) }
    {
        have_widths(self.functions.as_slice())
    }
}
