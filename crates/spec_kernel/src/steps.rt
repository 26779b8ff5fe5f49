//! Steps into the shape of a global's type: where each leads.

/// The elements of an array.
#[derive(Clone, Copy, Debug, PartialEq, Eq)]
pub struct Elements {
    pub count: u64,
    /// From one element to the next, in bytes.
    pub stride: u64,
    /// The number of an element's shape.
    pub shape: u32,
}

/// A field of a struct.
#[derive(Clone, Copy, Debug, PartialEq, Eq)]
pub struct Part {
    /// From the beginning of the struct, in bytes.
    pub offset: u64,
    /// The number of the field's shape.
    pub shape: u32,
}
