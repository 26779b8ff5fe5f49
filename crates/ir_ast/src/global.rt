//! Globals, named types, ranges and whole modules (LLVM Language Reference, "Module Structure").

ghost use Rattle.std.specs.Prelude.{◌≡◌};
ghost use Rattle.ir_ast.specs.Plain as plain;
ghost use Rattle.ir_ast.specs.View.{view_init, view_inits, view_init_list};

use crate::name::Name;
use crate::types::IrType;

/// An initialiser. Whether it fits its type is not asked here.
#[derive(Drop)]
#[cycle(inits)]
pub enum Init {
    /// `zeroinitializer`.
    Zero,
    Number(i128),
    /// `true` or `false`.
    Truth(bool),
    /// `c".."`, with its escapes undone.
    Bytes(ByteList),
    /// `[ T INIT , .. ]`.
    Array(InitList),
    /// `{ T INIT , .. }`.
    Struct(InitList),
    /// `<{ T INIT , .. }>`.
    Packed(InitList),
    /// `null`, or the address of a global.
    Pointer,
}

/// The parts of an initialiser, each with its type.
#[derive(Drop)]
#[cycle(inits)]
pub struct InitList {
    pub items: Vec<(IrType, Init)>,
}

impl InitList {
    /// The list of these parts.
    pub fn of(parts: Vec<(IrType, Init)>) -> InitList
        ensures { view_init_list result ≡ view_inits parts.items }
    {
        InitList { items: parts }
    }
}

impl Init {
    /// `[ T INIT , .. ]` of these parts.
    pub fn array_of(parts: InitList) -> Init
        ensures { view_init result ≡ plain.array_init (view_init_list parts) }
    {
        Init::Array(parts)
    }

    /// `{ T INIT , .. }` of these parts.
    pub fn struct_of(parts: InitList) -> Init
        ensures { view_init result ≡ plain.structure_init (view_init_list parts) }
    {
        Init::Struct(parts)
    }

    /// `<{ T INIT , .. }>` of these parts.
    pub fn packed_of(parts: InitList) -> Init
        ensures { view_init result ≡ plain.packed_init (view_init_list parts) }
    {
        Init::Packed(parts)
    }
}

/// Bytes of a text.
#[derive(Drop)]
pub struct ByteList {
    pub items: Vec<u8>,
}

/// A line of the text, and bytes that stand on it.
#[derive(Drop)]
pub struct LineText {
    pub line: u32,
    pub bytes: ByteList,
}

/// A named type.
#[derive(Drop)]
pub struct TypeEntry {
    pub line: u32,
    pub over: IrType,
}

/// A global. The `align` is in bytes.
#[derive(Drop)]
pub struct GlobalItem {
    pub line: u32,
    pub name: Name,
    pub constant: bool,
    pub over: IrType,
    pub init: Init,
    pub align: Option<u64>,
}

/// The numbers of a range, each with its type.
#[derive(Drop)]
pub struct TypedNumberList {
    pub items: Vec<(IrType, i128)>,
}

/// What a load's value may be: pairs of bounds.
#[derive(Drop)]
pub struct RangeEntry {
    pub line: u32,
    pub numbers: TypedNumberList,
}
