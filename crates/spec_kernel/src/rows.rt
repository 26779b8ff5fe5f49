//! What is kept of globals and of functions.

ghost use Rattle.std.specs.Prelude.{◌≡◌, Some, map, option_map};
ghost use Rattle.std.specs.List.{list_any, list_all};
ghost use Rattle.spec_kernel.specs.Handlers as definition;
ghost use Rattle.spec_kernel.specs.Widths as widths;
ghost use Rattle.spec_kernel.specs.Seen.{view_value, function_in, see_function};

/// The type of a parameter or a result.
#[derive(Clone, Copy, Debug, PartialEq, Eq)]
pub enum ValueType {
    /// An integer of this width, in bits.
    Int(u32),
    /// A pointer.
    Ptr,
}

/// What is kept of a global.
#[derive(Drop)]
pub struct GlobalRow<'k> {
    pub name: &'k [u8],
    /// In bytes.
    pub size: u64,
    /// The number of its type.
    pub shape: u32,
}

/// What is kept of a function.
#[derive(Drop)]
pub struct FunctionRow<'k> {
    pub name: &'k [u8],
    pub parameters: Vec<ValueType>,
    /// None for void.
    pub result: Option<ValueType>,
    /// It has a body.
    pub defined: bool,
    /// The functions that it calls, one for each call, in the order of the text.
    pub calls: Vec<&'k [u8]>,
}

/// Whether a value is a pointer.
fn is_address(value: &ValueType) -> bool
    ensures { result ≡ definition.is_address (view_value value.now) }
{
    match value {
        ValueType::Int(_) => false,
        ValueType::Ptr => true,
    }
}

/// Whether a pointer is among these.
fn have_address(values: &[ValueType]) -> bool
    ensures { result ≡ list_any definition.is_address (map view_value values.now) }
{
    'each: for value in values {
        if is_address(value) {
            return true;
        }
    }
    false
}

/// Whether a result is a pointer.
fn gives_address(result_type: Option<ValueType>) -> bool
    ensures { result ≡ definition.gives_address (option_map view_value result_type) }
{
    match result_type {
        Some(value) => is_address(&value),
        None => false,
    }
}

/// Whether a width has 1 to 64 bits.
fn is_width(width: u32) -> bool
    ensures { result ≡ widths.is_width width }
{
    1 <= width && width <= 64
}

/// Whether a value is a pointer, or an integer of 1 to 64 bits.
fn is_value_width(value: &ValueType) -> bool
    ensures { result ≡ widths.is_value_width (view_value value.now) }
{
    match value {
        ValueType::Int(width) => is_width(*width),
        ValueType::Ptr => true,
    }
}

/// Whether each of these is a pointer, or an integer of 1 to 64 bits.
fn are_value_widths(values: &[ValueType]) -> bool
    ensures { result ≡ list_all widths.is_value_width (map view_value values.now) }
{
    'each: for value in values {
        if !is_value_width(value) {
            return false;
        }
    }
    true
}

/// Whether a result is void, a pointer, or an integer of 1 to 64 bits.
fn is_result_width(result_type: Option<ValueType>) -> bool
    ensures { result ≡ widths.is_result_width (option_map view_value result_type) }
{
    match result_type {
        Some(value) => is_value_width(&value),
        None => true,
    }
}

impl<'k> FunctionRow<'k> {
    /// Whether it has a body and so many parameters.
    pub fn has_body_with(&self, parameters: usize) -> bool
        ensures { result ≡ definition.has_body_with parameters (Some (function_in (see_function self.now))) }
    {
        self.defined && self.parameters.len() == parameters
    }

    /// Whether it takes or gives a pointer.
    pub fn has_address(&self) -> bool
        ensures { result ≡ definition.has_address (Some (function_in (see_function self.now))) }
    {
        have_address(self.parameters.as_slice()) || gives_address(self.result)
    }

    /// Whether it is declared, without a body, and void.
    pub fn is_void_declared(&self) -> bool
        ensures { result ≡ definition.is_void_declared (Some (function_in (see_function self.now))) }
    {
        !self.defined && self.result.is_none()
    }

    /// Whether the integers that it takes and gives have 1 to 64 bits.
    pub fn has_widths(&self) -> bool
        ensures { result ≡ widths.has_widths (function_in (see_function self.now)) }
    {
        are_value_widths(self.parameters.as_slice()) && is_result_width(self.result)
    }
}
