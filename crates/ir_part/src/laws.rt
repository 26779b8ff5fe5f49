//! Laws of the readers, as functions without a body: what they ensure is the law.

ghost use Rattle.ir_part.specs.Laws.{NamesAreRead, NumbersAreRead, TypesAreRead, OperandsAreRead, AlignsAreRead, SameTypesAreEqual};

/// A name is read exactly where it is spelled.
pub fn names_are_read()
    ensures { NamesAreRead }
{}

/// A number or a width is read exactly where it is spelled.
pub fn numbers_are_read()
    ensures { NumbersAreRead }
{}

/// A type is read exactly where it is spelled with a depth of at most 100; so is a result.
pub fn types_are_read()
    ensures { TypesAreRead }
{}

/// An operand is read exactly where it is spelled at its type.
pub fn operands_are_read()
    ensures { OperandsAreRead }
{}

/// An alignment is read exactly where it is spelled.
pub fn aligns_are_read()
    ensures { AlignsAreRead }
{}

/// Two types are told to be the same exactly where they are.
pub fn same_types_are_equal()
    ensures { SameTypesAreEqual }
{}
