//! What a whole type is: its number comes in, the answer goes out in constant time.

ghost use Rattle.std.specs.Prelude.{◌≡◌, ◌<◌, ◌&&◌, ◌==◌, ℕ, not, List, length, option_map, IfSome};
ghost use Rattle.std.specs.List.{All};
ghost use Rattle.ir_ast.specs.Plain.{Ty};
ghost use Rattle.ir_type.specs.Whole as whole;
ghost use Rattle.ir_whole.specs.Heads.{type_at, fields, type_of, HeadFits, IsWithin};
ghost use Rattle.ir_whole.specs.Questions as parts;
ghost use Rattle.ir_whole.specs.Numbers.{types_of};

use crate::head::{Head, Row};
use crate::node::is_odd_width;
use crate::numbers::TypeNumbers;

/// Whether two numbers are one, and not that of nothing.
fn is_one(a: u32, b: u32) -> bool
    ensures { result ≡ (a == b && not (a == 0)) }
{
    a == b && a != 0
}

fn head_is_void(head: &Head) -> bool
    ensures { (types : List Ty) → result ≡ whole.is_void (type_of types head.now) }
{
    matches!(head, Head::Void)
}

fn head_is_pointer(head: &Head) -> bool
    ensures { (types : List Ty) → result ≡ whole.is_pointer (type_of types head.now) }
{
    matches!(head, Head::Ptr)
}

fn head_is_scalar(head: &Head) -> bool
    ensures { (types : List Ty) → result ≡ whole.is_scalar (type_of types head.now) }
{
    matches!(head, Head::Int(_) | Head::Ptr)
}

fn head_is_odd(head: &Head) -> bool
    ensures { (types : List Ty) → result ≡ whole.is_odd (type_of types head.now) }
{
    match head {
        Head::Int(width) => is_odd_width(*width),
        _ => false,
    }
}

fn head_width(head: &Head) -> Option<u32>
    ensures { (types : List Ty) → result ≡ parts.width_of (type_of types head.now) }
{
    match head {
        Head::Int(width) => Some(*width),
        _ => None,
    }
}

fn head_element(head: &Head) -> Option<(u64, u32)>
    ensures element { (types : List Ty) → option_map (λ p. (p.0, type_at types p.1)) result ≡ parts.element_of (type_of types head.now) }
    ensures within { (n : ℕ) → IsWithin n head.now → IfSome result (λ p. p.1 < n) }
{
    match head {
        Head::Array(length, element) => Some((*length, *element)),
        _ => None,
    }
}

fn row_count(row: &Row) -> u64
    ensures { (types : List Ty) → result ≡ parts.count_in (fields types row.now) }
{
    row.as_slice().len() as u64
}

fn head_count(head: &Head) -> Option<u64>
    ensures { (types : List Ty) → result ≡ parts.count_of (type_of types head.now) }
{
    match head {
        Head::Struct(row) => Some(row_count(row)),
        Head::Packed(row) => Some(row_count(row)),
        _ => None,
    }
}

fn row_field(row: &Row, k: u64) -> Option<u32>
    ensures field { (types : List Ty) → option_map (type_at types) result ≡ parts.field_in k (fields types row.now) }
    ensures within { (n : ℕ) → All (λ p. p < n) row.now → IfSome result (λ f. f < n) }
{
    let items = row.as_slice();
    if k < items.len() as u64 {
        Some(items[k as usize])
    } else {
        None
    }
}

fn head_field(head: &Head, k: u64) -> Option<u32>
    ensures field { (types : List Ty) → option_map (type_at types) result ≡ parts.field_of k (type_of types head.now) }
    ensures within { (n : ℕ) → IsWithin n head.now → IfSome result (λ f. f < n) }
{
    match head {
        Head::Struct(row) => row_field(row, k),
        Head::Packed(row) => row_field(row, k),
        _ => None,
    }
}

impl TypeNumbers {
    /// The head of a type: what it is, by the numbers of its parts.
    pub fn head(&self, number: u32) -> &Head
        requires { number < length (types_of self.now) }
        ensures is { type_at (types_of self.now) number ≡ type_of (types_of self.now) result.now }
        ensures parts { 0 < number → HeadFits number result.now }
        ensures within { IsWithin (length (types_of self.now)) result.now }
    {
        self.heads.head(number)
    }

    /// Whether two numbers stand for one type. It is false where both are that of nothing.
    pub fn is_same(&self, a: u32, b: u32) -> bool
        requires a { a < length (types_of self.now) }
        requires b { b < length (types_of self.now) }
        ensures same { result ≡ whole.is_same (type_at (types_of self.now) a) (type_at (types_of self.now) b) }
        ensures number { result ≡ (a == b && not (a == 0)) }
    {
        self.tells_apart();
        is_one(a, b)
    }

    /// Two numbers stand for one type just where they are one, and not that of nothing. The call does nothing: its contract is a law.
    pub fn tells_apart(&self)
        ensures { (a b : ℕ) → a < length (types_of self.now) → b < length (types_of self.now) → (a == b && not (a == 0)) ≡ whole.is_same (type_at (types_of self.now) a) (type_at (types_of self.now) b) }
    {
        self.heads.tells_apart();
    }

    /// Whether an integer of a width other than 8, 16, 32 and 64 bits stands in a type.
    pub fn has_odd(&self, number: u32) -> bool
        requires { number < length (types_of self.now) }
        ensures { result ≡ whole.has_odd (type_at (types_of self.now) number) }
    {
        self.heads.facts(number).odd
    }

    /// Whether a pointer stands in a type.
    pub fn has_pointer(&self, number: u32) -> bool
        requires { number < length (types_of self.now) }
        ensures { result ≡ whole.has_pointer (type_at (types_of self.now) number) }
    {
        self.heads.facts(number).pointer
    }

    /// Whether a type is that of a function that gives nothing.
    pub fn is_void(&self, number: u32) -> bool
        requires { number < length (types_of self.now) }
        ensures { result ≡ whole.is_void (type_at (types_of self.now) number) }
    {
        head_is_void(self.head(number))
    }

    /// Whether a type is `ptr`.
    pub fn is_pointer(&self, number: u32) -> bool
        requires { number < length (types_of self.now) }
        ensures { result ≡ whole.is_pointer (type_at (types_of self.now) number) }
    {
        head_is_pointer(self.head(number))
    }

    /// Whether a type is an integer or `ptr`.
    pub fn is_scalar(&self, number: u32) -> bool
        requires { number < length (types_of self.now) }
        ensures { result ≡ whole.is_scalar (type_at (types_of self.now) number) }
    {
        head_is_scalar(self.head(number))
    }

    /// Whether a type is an integer of a width other than 8, 16, 32 and 64 bits.
    pub fn is_odd(&self, number: u32) -> bool
        requires { number < length (types_of self.now) }
        ensures { result ≡ whole.is_odd (type_at (types_of self.now) number) }
    {
        head_is_odd(self.head(number))
    }

    /// The width of an integer, in bits.
    pub fn width(&self, number: u32) -> Option<u32>
        requires { number < length (types_of self.now) }
        ensures { result ≡ parts.width_of (type_at (types_of self.now) number) }
    {
        head_width(self.head(number))
    }

    /// The length of an array, and the number of its element.
    pub fn element(&self, number: u32) -> Option<(u64, u32)>
        requires { number < length (types_of self.now) }
        ensures within { IfSome result (λ p. p.1 < length (types_of self.now)) }
        ensures element { option_map (λ p. (p.0, type_at (types_of self.now) p.1)) result ≡ parts.element_of (type_at (types_of self.now) number) }
    {
        head_element(self.head(number))
    }

    /// How many fields a struct has.
    pub fn fields(&self, number: u32) -> Option<u64>
        requires { number < length (types_of self.now) }
        ensures { result ≡ parts.count_of (type_at (types_of self.now) number) }
    {
        head_count(self.head(number))
    }

    /// The number of field k of a struct, counted from 0.
    pub fn field(&self, number: u32, k: u64) -> Option<u32>
        requires { number < length (types_of self.now) }
        ensures within { IfSome result (λ f. f < length (types_of self.now)) }
        ensures field { option_map (type_at (types_of self.now)) result ≡ parts.field_of k (type_at (types_of self.now) number) }
    {
        head_field(self.head(number), k)
    }
}
