//! Trees of the items outside of bodies.

use ir_ast::{ByteList, Init, IrType, Name, ParameterList};

/// An item outside of bodies. An `align` is in bytes.
#[derive(Drop)]
pub enum TopItem {
    /// `target datalayout`.
    Layout(ByteList),
    /// A named type.
    Named(Name, IrType),
    Global {
        name: Name,
        constant: bool,
        over: IrType,
        init: Init,
        align: Option<u64>,
    },
    /// The head of a function. A parameter without a name has its number as its name.
    Define {
        name: Name,
        result: IrType,
        parameters: ParameterList,
    },
    Declare {
        name: Name,
        result: IrType,
    },
}
