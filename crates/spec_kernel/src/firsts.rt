//! Names with their first places, found by hash in constant time.

ghost use Rattle.std.specs.Prelude.{◌≡◌, ◌<◌, ◌^◌, [], length, map, IfOk, OnOk, bytes_eq};
ghost use Rattle.std.specs.Map.{lookup};
ghost use Rattle.spec_kernel.specs.Firsts.{place_at, with_place, AreFirsts};

use crate::rows::{FunctionRow, GlobalRow};
use indexmap::IndexMap;
use std::alloc::{AllocError, Global};
use std::marker::Model;

/// Names with their first places.
#[derive(Drop)]
pub struct Firsts<'k> {
    places: IndexMap<&'k [u8], u32>,
}

impl<'k> Model for Firsts<'k> {
    ghost use Rattle.std.specs.Prelude.{ℕ, List};
    ghost use Rattle.spec_kernel.specs.Firsts.{placed};

    ghost Value = { List (List ℕ × ℕ) };

    ghost view = { λ f. placed f.places.entries };
}

/// The place that stands with a name.
fn place(places: &IndexMap<&[u8], u32>, name: &[u8]) -> Option<u32>
    ensures { result ≡ lookup (λ k. bytes_eq name.now k.now) places.now.entries }
{
    places.get(&name).copied()
}

impl<'k> Firsts<'k> {
    /// No names. It takes no memory.
    fn new(alloc: Global) -> Firsts<'k>
        ensures { result ≡ [] }
    {
        Firsts {
            places: IndexMap::new(alloc),
        }
    }

    /// The place that stands with a name.
    #[tactic(auto, using(crate::proofs::FirstPlaces::place_placed))]
    pub fn get(&self, name: &[u8]) -> Option<u32>
        ensures { result ≡ place_at name.now self.now }
    {
        place(&self.places, name)
    }

    /// Puts a name with its place, unless the name is there.
    #[tactic(auto, using(crate::proofs::FirstPlaces::place_placed, crate::proofs::FirstPlaces::placed_push))]
    fn add(&mut self, name: &'k [u8], at: u32) -> Result<(), AllocError>
        ensures { OnOk result (self.new ≡ with_place self.old name.now at) }
    {
        if place(&self.places, name).is_some() {
            return Ok(());
        }
        self.places.insert(name, at)?;
        Ok(())
    }
}

/// The first places of the globals' names.
pub fn global_places<'k>(alloc: Global, globals: &[GlobalRow<'k>]) -> Result<Firsts<'k>, AllocError>
    requires { length globals.now < 2 ^ 32 }
    ensures { IfOk result (λ firsts. AreFirsts firsts (map (λ g. g.name.now) globals.now)) }
{
    let mut firsts = Firsts::new(alloc);
    for (at, global) in globals.iter().enumerate() {
        firsts.add(global.name, at as u32)?;
    }
    Ok(firsts)
}

/// The first places of the functions' names.
pub fn function_places<'k>(
    alloc: Global,
    functions: &[FunctionRow<'k>],
) -> Result<Firsts<'k>, AllocError>
    requires { length functions.now < 2 ^ 32 }
    ensures { IfOk result (λ firsts. AreFirsts firsts (map (λ f. f.name.now) functions.now)) }
{
    let mut firsts = Firsts::new(alloc);
    for (at, function) in functions.iter().enumerate() {
        firsts.add(function.name, at as u32)?;
    }
    Ok(firsts)
}
