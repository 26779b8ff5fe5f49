//! Numbers of the whole types that the types of a text stand for.
//!
//! The table of named types comes in once, and each of them gets its number behind those that it spells. Then types come in as the
//! reader built them, and their numbers go out.

ghost use Rattle.std.specs.Prelude.{◌≡◌, ◌<◌, ◌≤◌, ◌^◌, ℕ, Option, None, Some, List, length, slice_get, IfOk, option_map};
ghost use Rattle.ir_ast.specs.Plain.{Ty, Tys, integer, pointer, array, structure, packed};
ghost use Rattle.ir_ast.specs.View.{view_type, view_type_list};
ghost use Rattle.ir_ast.specs.Program.{TypeView};
ghost use Rattle.ir_ast.specs.ProgramView.{view_entries, view_type_entry};
ghost use Rattle.hk_graph.specs.Sorted.{flag_of};
ghost use Rattle.ir_type.specs.Whole.{Types, whole, whole_by, wholes_by, meant};
ghost use Rattle.ir_whole.specs.Heads.{type_at, type_of, types_by, HeadFits, Grows, Stands, StandsRow};
ghost use Rattle.ir_whole.specs.Numbers.{look_in, Looks, AreBelow, MayFit, node_whole, types_of, AreNamed, IsFor};

use crate::head::{Head, Row};
use crate::list::HeadList;
use hk_graph::Order;
use ir_ast::{IrType, Name, TypeList, TypeTable};
use ir_type::type_order;
use std::alloc::{AllocError, Global};

/// The number that is kept of a name.
fn look(types: &TypeTable, numbers: &[u32], name: &Name) -> u32
    requires { length types.now < 2 ^ 32 }
    ensures { result ≡ look_in types.now numbers.now name.now }
{
    match types.get(name) {
        Some(place) => match numbers.get(place as usize) {
            Some(number) => *number,
            None => 0,
        },
        None => 0,
    }
}

/// The number of an array of such elements.
fn array_in(
    alloc: Global,
    heads: &mut HeadList,
    count: u64,
    element: u32,
) -> Result<u32, AllocError>
    requires { element < length heads.old }
    ensures number { (o : Option Ty) → Stands (types_by heads.old) element o → IfOk result (λ n. Stands (types_by heads.new) n (option_map (array count) o)) }
    ensures within { IfOk result (λ n. n < length heads.new) }
    ensures longer { length heads.old ≤ length heads.new }
    ensures grows { (first : List Head) → Grows first heads.old → Grows first heads.new }
{
    if element == 0 {
        return Ok(0);
    }
    heads.intern(alloc, Head::Array(count, element))
}

/// The number of a struct with these parts, where they all stand for types.
fn struct_in(alloc: Global, heads: &mut HeadList, row: Option<Row>) -> Result<u32, AllocError>
    requires some { 0 < length heads.old }
    requires fits { MayFit (length heads.old) row }
    ensures number { (o : Option Tys) → StandsRow (types_by heads.old) row o → IfOk result (λ n. Stands (types_by heads.new) n (option_map structure o)) }
    ensures within { IfOk result (λ n. n < length heads.new) }
    ensures longer { length heads.old ≤ length heads.new }
    ensures grows { (first : List Head) → Grows first heads.old → Grows first heads.new }
{
    match row {
        Some(row) => heads.intern(alloc, Head::Struct(row)),
        None => Ok(0),
    }
}

/// The number of a packed struct with these parts, where they all stand for types.
fn packed_in(alloc: Global, heads: &mut HeadList, row: Option<Row>) -> Result<u32, AllocError>
    requires some { 0 < length heads.old }
    requires fits { MayFit (length heads.old) row }
    ensures number { (o : Option Tys) → StandsRow (types_by heads.old) row o → IfOk result (λ n. Stands (types_by heads.new) n (option_map packed o)) }
    ensures within { IfOk result (λ n. n < length heads.new) }
    ensures longer { length heads.old ≤ length heads.new }
    ensures grows { (first : List Head) → Grows first heads.old → Grows first heads.new }
{
    match row {
        Some(row) => heads.intern(alloc, Head::Packed(row)),
        None => Ok(0),
    }
}

/// The number of the type that a type stands for, where these are the numbers of the named types.
#[cycle(numbers)]
fn number_in(
    alloc: Global,
    types: &TypeTable,
    numbers: &[u32],
    heads: &mut HeadList,
    over: &IrType,
) -> Result<u32, AllocError>
    requires small { length types.now < 2 ^ 32 }
    requires some { 0 < length heads.old }
    requires below { AreBelow (length heads.old) numbers.now }
    ensures number { (s : List ℕ → Option Ty) → Looks types.now numbers.now (types_by heads.old) s → IfOk result (λ n. Stands (types_by heads.new) n (whole_by s (view_type over.now))) }
    ensures within { IfOk result (λ n. n < length heads.new) }
    ensures longer { length heads.old ≤ length heads.new }
    ensures grows { (first : List Head) → Grows first heads.old → Grows first heads.new }
{
    match over {
        IrType::Void => heads.intern(alloc, Head::Void),
        IrType::Int(width) => heads.intern(alloc, Head::Int(*width)),
        IrType::Ptr => heads.intern(alloc, Head::Ptr),
        IrType::Array(length, element) => {
            let element = number_in(alloc, types, numbers, heads, element)?;
            array_in(alloc, heads, *length, element)
        }
        IrType::Struct(parts) => {
            let row = row_in(alloc, types, numbers, heads, parts)?;
            struct_in(alloc, heads, row)
        }
        IrType::Packed(parts) => {
            let row = row_in(alloc, types, numbers, heads, parts)?;
            packed_in(alloc, heads, row)
        }
        IrType::Named(name) => Ok(look(types, numbers, name)),
        IrType::Opaque => Ok(0),
    }
}

/// The numbers of the parts of a struct, where they all stand for types.
#[cycle(numbers)]
fn row_in(
    alloc: Global,
    types: &TypeTable,
    numbers: &[u32],
    heads: &mut HeadList,
    parts: &TypeList,
) -> Result<Option<Row>, AllocError>
    requires small { length types.now < 2 ^ 32 }
    requires some { 0 < length heads.old }
    requires below { AreBelow (length heads.old) numbers.now }
    ensures parts { (s : List ℕ → Option Ty) → Looks types.now numbers.now (types_by heads.old) s → IfOk result (λ r. StandsRow (types_by heads.new) r (wholes_by s (view_type_list parts.now))) }
    ensures fits { IfOk result (λ r. MayFit (length heads.new) r) }
    ensures longer { length heads.old ≤ length heads.new }
    ensures grows { (first : List Head) → Grows first heads.old → Grows first heads.new }
{
    let items = parts.items.as_slice();
    let mut row = Vec::new(alloc);
    'each: for part in items {
        let number = number_in(alloc, types, numbers, heads, part)?;
        if number == 0 {
            return Ok(None);
        }
        row.push(number)?;
    }
    Ok(Some(Row::new(row)))
}

/// Whole types, each once, under numbers from 0 on, with the numbers of the named types of a table. Number 0 is the type of nothing:
/// what an unknown name stands for, one of an opaque type, and one of a type that contains itself.
#[derive(Drop)]
pub struct TypeNumbers {
    pub(crate) heads: HeadList,
    named: Vec<u32>,
}

/// Whether the type at a place contains itself.
fn is_cyclic(order: &Order, place: u32) -> bool
    requires { place < length order.now.cyclic.items }
    ensures { result ≡ flag_of order.now.cyclic.items place }
{
    order.cyclic[place as usize]
}

/// The number of a named type, where these are the numbers of those that it spells.
fn number_at(
    alloc: Global,
    types: &TypeTable,
    numbers: &[u32],
    heads: &mut HeadList,
    place: u32,
    cyclic: bool,
) -> Result<u32, AllocError>
    requires small { length types.now < 2 ^ 32 }
    requires some { 0 < length heads.old }
    requires below { AreBelow (length heads.old) numbers.now }
    requires place { place < length types.now }
    ensures number { (s : List ℕ → Option Ty) → Looks types.now numbers.now (types_by heads.old) s → (e : TypeView) → (x : List ℕ) → slice_get (view_entries view_type_entry types.now) place ≡ Some (x, e) → IfOk result (λ n. Stands (types_by heads.new) n (node_whole cyclic (whole_by s e.over))) }
    ensures within { IfOk result (λ n. n < length heads.new) }
    ensures longer { length heads.old ≤ length heads.new }
    ensures grows { (first : List Head) → Grows first heads.old → Grows first heads.new }
{
    if cyclic {
        return Ok(0);
    }
    let number = number_in(alloc, types, numbers, heads, &types.at(place).over)?;
    Ok(number)
}

/// The numbers of the named types, by their places. It takes time linear in the types, but for the look-ups of whole types.
fn numbers_of(
    alloc: Global,
    types: &TypeTable,
    heads: &mut HeadList,
) -> Result<Vec<u32>, AllocError>
    requires small { length types.now < 2 ^ 32 }
    requires first { slice_get heads.old 0 ≡ Some Head.Opaque }
    ensures { IfOk result (λ named. AreNamed (view_entries view_type_entry types.now) heads.new named.items) }
{
    let order = type_order(alloc, types)?;
    let mut named = vec![in alloc; 0; types.len() as usize]?;
    for node in &order.nodes {
        let number = number_at(alloc, types, &named, heads, *node, is_cyclic(&order, *node))?;
        named[*node as usize] = number;
    }
    Ok(named)
}

impl TypeNumbers {
    /// The numbers of the named types of a table. It takes time linear in the types, but for the look-ups of whole types.
    pub fn of(alloc: Global, types: &TypeTable) -> Result<TypeNumbers, AllocError>
        requires { length types.now < 2 ^ 32 }
        ensures { IfOk result (λ numbers. IsFor (view_entries view_type_entry types.now) numbers) }
    {
        let mut heads = HeadList::new(alloc)?;
        let named = numbers_of(alloc, types, &mut heads)?;
        Ok(TypeNumbers { heads, named })
    }

    /// The number of the whole type that a type stands for. Earlier numbers stay, also after an error. It takes time linear in what
    /// the type spells, but for the look-ups of whole types, which an ordered index answers. Memory is also wanted where 32 bits have
    /// no further number.
    pub fn number(
        &mut self,
        alloc: Global,
        types: &TypeTable,
        over: &IrType,
    ) -> Result<u32, AllocError>
        requires small { length types.now < 2 ^ 32 }
        requires types { IsFor (view_entries view_type_entry types.now) self.old }
        ensures number { IfOk result (λ n. slice_get (types_of self.new) n ≡ Some (meant (view_entries view_type_entry types.now) (view_type over.now))) }
        ensures stands { IfOk result (λ n. Stands (types_of self.new) n (whole (view_entries view_type_entry types.now) (view_type over.now))) }
        ensures within { IfOk result (λ n. n < length (types_of self.new)) }
        ensures longer { length (types_of self.old) ≤ length (types_of self.new) }
        ensures keeps { (k : ℕ) → k < length (types_of self.old) → type_at (types_of self.new) k ≡ type_at (types_of self.old) k }
        ensures grows { (first : List Ty) → Grows first (types_of self.old) → Grows first (types_of self.new) }
        ensures types { IsFor (view_entries view_type_entry types.now) self.new }
    {
        let number = number_in(alloc, types, &self.named, &mut self.heads, over)?;
        Ok(number)
    }
    /// The number of a type without parts.
    fn leaf(&mut self, alloc: Global, head: Head) -> Result<u32, AllocError>
        requires { HeadFits (length self.old.heads) head }
        ensures number { IfOk result (λ n. slice_get (types_of self.new) n ≡ Some (type_of (types_of self.old) head)) }
        ensures within { IfOk result (λ n. n < length (types_of self.new)) }
        ensures longer { length (types_of self.old) ≤ length (types_of self.new) }
        ensures keeps { (k : ℕ) → k < length (types_of self.old) → type_at (types_of self.new) k ≡ type_at (types_of self.old) k }
        ensures grows { (first : List Ty) → Grows first (types_of self.old) → Grows first (types_of self.new) }
        ensures types { (types : Types) → IsFor types self.old → IsFor types self.new }
    {
        let number = self.heads.intern(alloc, head)?;
        Ok(number)
    }

    /// The number of `iN`, of this width in bits.
    pub fn integer(&mut self, alloc: Global, width: u32) -> Result<u32, AllocError>
        ensures number { IfOk result (λ n. slice_get (types_of self.new) n ≡ Some (integer width)) }
        ensures within { IfOk result (λ n. n < length (types_of self.new)) }
        ensures longer { length (types_of self.old) ≤ length (types_of self.new) }
        ensures keeps { (k : ℕ) → k < length (types_of self.old) → type_at (types_of self.new) k ≡ type_at (types_of self.old) k }
        ensures grows { (first : List Ty) → Grows first (types_of self.old) → Grows first (types_of self.new) }
        ensures types { (types : Types) → IsFor types self.old → IsFor types self.new }
    {
        self.leaf(alloc, Head::Int(width))
    }

    /// The number of `ptr`.
    pub fn pointer(&mut self, alloc: Global) -> Result<u32, AllocError>
        ensures number { IfOk result (λ n. slice_get (types_of self.new) n ≡ Some pointer) }
        ensures within { IfOk result (λ n. n < length (types_of self.new)) }
        ensures longer { length (types_of self.old) ≤ length (types_of self.new) }
        ensures keeps { (k : ℕ) → k < length (types_of self.old) → type_at (types_of self.new) k ≡ type_at (types_of self.old) k }
        ensures grows { (first : List Ty) → Grows first (types_of self.old) → Grows first (types_of self.new) }
        ensures types { (types : Types) → IsFor types self.old → IsFor types self.new }
    {
        self.leaf(alloc, Head::Ptr)
    }
}
