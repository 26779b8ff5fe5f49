//! Local names and variables by their places. The room is used again.

ghost use Rattle.std.specs.Prelude.{◌≡◌, ◌<◌, ℕ, List, length, slice_index, OnOk};
ghost use Rattle.spec_tree.specs.Sorted.{product};
ghost use Rattle.spec_tree.specs.Value.{tuple_at};
ghost use Rattle.spec_number.specs.Scope.{Scope, nothing_named, with_number, entered};

use crate::leaf::{bits_at, width_at};
use crate::reading::Number;
use spec_value::push_tuple;
use std::alloc::{AllocError, Global};
use std::marker::Model;

/// The local names in order, and the variables of the enclosing quantifiers, the outermost first.
#[derive(Drop)]
pub struct Frame {
    widths: Vec<u32>,
    locals: Vec<u64>,
    sizes: Vec<u32>,
    indices: Vec<u64>,
}

impl Model for Frame {
    ghost use Rattle.spec_number.specs.Scope.{Scope};

    ghost Value = { Scope };

    ghost view = { λ f. record { widths = f.widths.items; locals = f.locals.items; sizes = f.sizes.items; indices = f.indices.items } };
}

impl Frame {
    /// A frame with no names. It takes no memory.
    pub fn new(alloc: Global) -> Frame
        ensures { result ≡ nothing_named }
    {
        Frame {
            widths: Vec::new(alloc),
            locals: Vec::new(alloc),
            sizes: Vec::new(alloc),
            indices: Vec::new(alloc),
        }
    }

    /// Forgets all names, and keeps the room.
    pub fn clear(&mut self)
        ensures { self.new ≡ nothing_named }
    {
        self.widths.clear();
        self.locals.clear();
        self.sizes.clear();
        self.indices.clear();
    }

    /// Puts the next local name.
    pub fn put_local(&mut self, number: Number) -> Result<(), AllocError>
        ensures { OnOk result (self.new ≡ with_number self.old number.width number.bits) }
    {
        self.widths.push(number.width)?;
        self.locals.push(number.bits)?;
        Ok(())
    }

    /// Puts variables of these sizes, with the k-th of their `all` index tuples.
    pub fn enter(&mut self, sizes: &[u32], all: u64, k: u64) -> Result<(), AllocError>
        requires all { all ≡ product sizes.now }
        requires within { k < all }
        ensures { OnOk result (self.new ≡ entered self.old sizes.now (tuple_at sizes.now k)) }
    {
        self.sizes.extend_from_slice(sizes)?;
        push_tuple(sizes, all, k, &mut self.indices)?;
        Ok(())
    }

    /// Forgets the last variables, so many.
    pub fn leave(&mut self, count: usize)
        ensures { (outer : Scope) (sizes indices : List ℕ) → self.old ≡ entered outer sizes indices → length sizes ≡ count → length indices ≡ count → self.new ≡ outer }
    {
        let sizes = self.sizes.len().saturating_sub(count);
        self.sizes.truncate(sizes);
        let indices = self.indices.len().saturating_sub(count);
        self.indices.truncate(indices);
    }

    /// The width of a local name; 0 where there is none.
    pub fn width(&self, k: u32) -> u32
        ensures { result ≡ slice_index self.now.widths k }
    {
        width_at(self.widths.as_slice(), k)
    }

    /// The number of a local name; 0 where there is none.
    pub fn local(&self, k: u32) -> u64
        ensures { result ≡ slice_index self.now.locals k }
    {
        bits_at(self.locals.as_slice(), u64::from(k))
    }

    /// The number of a variable; 0 where there is none.
    pub fn index(&self, k: u32) -> u64
        ensures { result ≡ slice_index self.now.indices k }
    {
        bits_at(self.indices.as_slice(), u64::from(k))
    }
}
