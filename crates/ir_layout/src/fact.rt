//! What is kept of a type.

ghost use Rattle.std.specs.Prelude.{◌≡◌, ◌<◌, ◌≤◌, ◌^◌, ◌+◌, ◌*◌, ◌/◌};
ghost use Rattle.ir_layout.specs.Sizes.{up_to};
ghost use Rattle.ir_layout.specs.Facts.{cut, is_over, scalar_fact, opaque_fact, unknown_fact, array_fact, no_fields, with_field, with_packed, struct_fact, packed_fact, named_fact, known_size, known_align, IsKept};

/// The limit of a type, in bytes.
const LIMIT: u64 = 4_294_967_296;

/// What is kept of a type. The size is in bytes, and cut at one byte over the limit.
#[derive(Clone, Copy)]
pub struct Fact {
    /// The type stands for one with a size.
    pub known: bool,
    pub size: u64,
    pub align: u64,
    /// An integer of a width that memory does not have stands in it.
    pub odd: bool,
    /// It spells a name that stands for none.
    pub bad: bool,
    /// It, or a part that it spells, is over the limit.
    pub large: bool,
}

/// A size as it is kept.
pub fn cut_size(size: u128) -> u64
    ensures { result ≡ cut size }
{
    size.min(4_294_967_297) as u64
}

fn is_over_limit(known: bool, odd: bool, size: u64) -> bool
    ensures { result ≡ is_over known odd size }
{
    known && !odd && LIMIT < size
}

impl Fact {
    /// A number or a pointer, or nothing.
    pub fn of_scalar(size: u64, align: u64, odd: bool) -> Fact
        ensures fact { result ≡ scalar_fact size align odd }
        ensures kept { 0 < align → align ≤ 8 → IsKept result }
    {
        let size = cut_size(u128::from(size));
        Fact {
            known: true,
            size,
            align,
            odd,
            bad: false,
            large: is_over_limit(true, odd, size),
        }
    }

    /// A type without parts of its own.
    pub fn of_opaque() -> Fact
        ensures fact { result ≡ opaque_fact }
        ensures kept { IsKept result }
    {
        Fact {
            known: false,
            size: 0,
            align: 1,
            odd: false,
            bad: false,
            large: false,
        }
    }

    /// A name that no type has.
    pub fn of_unknown() -> Fact
        ensures fact { result ≡ unknown_fact }
        ensures kept { IsKept result }
    {
        Fact {
            known: false,
            size: 0,
            align: 1,
            odd: false,
            bad: true,
            large: false,
        }
    }

    /// The fields of a struct before the first.
    pub fn of_no_fields() -> Fact
        ensures fact { result ≡ no_fields }
        ensures kept { IsKept result }
    {
        Fact {
            known: true,
            size: 0,
            align: 1,
            odd: false,
            bad: false,
            large: false,
        }
    }

    /// An array of so many elements.
    pub fn times(self, length: u64) -> Fact
        requires { IsKept self }
        ensures fact { result ≡ array_fact length self }
        ensures kept { IsKept result }
    {
        let size = cut_size(u128::from(length) * u128::from(self.size));
        Fact {
            size,
            large: self.large || is_over_limit(self.known, self.odd, size),
            ..self
        }
    }

    /// The fields of a struct with one behind them.
    pub fn with_field(self, field: Fact) -> Fact
        requires kept { IsKept self }
        requires field { IsKept field }
        ensures fact { result ≡ with_field self field }
        ensures kept { IsKept result }
    {
        Fact {
            known: self.known && field.known,
            size: cut_size(u128::from(rounded(self.size, field.align)) + u128::from(field.size)),
            align: self.align.max(field.align),
            odd: self.odd || field.odd,
            bad: self.bad || field.bad,
            large: self.large || field.large,
        }
    }

    /// The fields of a packed struct with one behind them.
    pub fn with_packed(self, field: Fact) -> Fact
        requires kept { IsKept self }
        requires field { IsKept field }
        ensures fact { result ≡ with_packed self field }
        ensures kept { IsKept result }
    {
        Fact {
            known: self.known && field.known,
            size: cut_size(u128::from(self.size) + u128::from(field.size)),
            align: 1,
            odd: self.odd || field.odd,
            bad: self.bad || field.bad,
            large: self.large || field.large,
        }
    }

    /// The struct of these fields.
    pub fn into_struct(self) -> Fact
        requires { IsKept self }
        ensures fact { result ≡ struct_fact self }
        ensures kept { IsKept result }
    {
        let size = cut_size(u128::from(rounded(self.size, self.align)));
        Fact {
            size,
            large: self.large || is_over_limit(self.known, self.odd, size),
            ..self
        }
    }

    /// The packed struct of these fields.
    pub fn into_packed(self) -> Fact
        requires { IsKept self }
        ensures fact { result ≡ packed_fact self }
        ensures kept { IsKept result }
    {
        Fact {
            align: 1,
            large: self.large || is_over_limit(self.known, self.odd, self.size),
            ..self
        }
    }

    /// The size in bytes; 0 of what stands for no type.
    pub fn known_size(self) -> u64
        ensures { result ≡ known_size self }
    {
        if self.known { self.size } else { 0 }
    }

    /// The alignment in bytes; 1 of what stands for no type.
    pub fn known_align(self) -> u64
        ensures { result ≡ known_align self }
    {
        if self.known { self.align } else { 1 }
    }

    /// What is kept of a named type, which may be bad.
    pub fn into_named(self, bad: bool) -> Fact
        requires { IsKept self }
        ensures fact { result ≡ named_fact bad self }
        ensures kept { IsKept result }
    {
        let odd = self.known && self.odd;
        Fact {
            odd,
            bad,
            large: is_over_limit(self.known, odd, self.size),
            ..self
        }
    }
}

/// The next multiple of an alignment.
pub fn rounded(size: u64, align: u64) -> u64
    requires align { 0 < align }
    requires small { align < 2 ^ 32 }
    requires size { size < 2 ^ 34 }
    ensures { result ≡ up_to align size }
{
    (size + (align - 1)) / align * align
}
