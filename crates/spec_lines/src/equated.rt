//! Which fields the conjuncts of the equivalence function are equations of, and how often each.

ghost use Rattle.std.specs.Prelude.{◌≡◌, ◌<◌, ℕ, length, count_by, nat_eq, if◌then◌else◌, slice_index_or, IfOk, OnOk};
ghost use Rattle.spec_lines.specs.Equations.{is_place};
ghost use Rattle.spec_lines.specs.Times as definition;
ghost use Rattle.spec_lines.specs.Times.{AreTallied};
ghost use Rattle.spec_lines.specs.declared.equated.Times.TheVariants.{Never};

use std::alloc::{AllocError, Global};
use std::marker::Model;

/// How often, told apart up to two.
#[derive(Clone, Copy, Debug)]
pub enum Times {
    Never,
    Once,
    Often,
}

/// Of each conjunct of the equivalence function, the place of the field that it is an equation of: contracts see this list. How many
/// equations a field has is told in constant time.
#[derive(Drop)]
pub struct Equated {
    places: Vec<Option<u32>>,
    /// By the places of fields; of one behind the last there is no equation.
    times: Vec<Times>,
}

impl Model for Equated {
    ghost use Rattle.std.specs.Prelude.{List, ℕ, Option};

    ghost Value = { List (Option ℕ) };

    ghost use Rattle.spec_lines.specs.Times.{AreTallied};

    ghost view = { λ e. e.places.items };

    ghost invariant = { λ e. AreTallied e.times.items e.places.items };
}

/// Once more.
fn more(times: Times) -> Times
    ensures { result ≡ definition.more times }
{
    match times {
        Times::Never => Times::Once,
        _ => Times::Often,
    }
}

/// How often what stands at a place does.
fn times_at(times: &[Times], place: u32) -> Times
    ensures { result ≡ slice_index_or times.now place Never }
{
    match times.get(place as usize) {
        Some(times) => *times,
        None => Times::Never,
    }
}

/// Makes room for a place.
fn make_room(times: &mut Vec<Times>, place: usize) -> Result<(), AllocError>
    ensures room { OnOk result (place < length times.new.items) }
    ensures same { OnOk result ((p : ℕ) → slice_index_or times.new.items p Never ≡ slice_index_or times.old.items p Never) }
{
    'more: while times.len() <= place {
        times.push(Times::Never)?;
    }
    Ok(())
}

/// One more at a place.
fn add_one(times: &mut Vec<Times>, place: u32) -> Result<(), AllocError>
    ensures { OnOk result ((p : ℕ) → slice_index_or times.new.items p Never ≡ definition.more_at place p (slice_index_or times.old.items p Never)) }
{
    let at = place as usize;
    make_room(times, at)?;
    times[at] = more(times[at]);
    Ok(())
}

/// One more where a conjunct is an equation of the field at a place.
fn add_place(times: &mut Vec<Times>, place: Option<u32>) -> Result<(), AllocError>
    ensures { OnOk result ((p : ℕ) → slice_index_or times.new.items p Never ≡ definition.more_for place p (slice_index_or times.old.items p Never)) }
{
    match place {
        Some(place) => add_one(times, place),
        None => Ok(()),
    }
}

/// How often each place stands there.
fn times_of(alloc: Global, places: &[Option<u32>]) -> Result<Vec<Times>, AllocError>
    ensures { IfOk result (λ v. AreTallied v.items places.now) }
{
    let mut times = Vec::new(alloc);
    'each: for place in places {
        add_place(&mut times, *place)?;
    }
    Ok(times)
}

/// Whether it is once.
fn is_once(times: Times) -> bool
    ensures { result ≡ definition.is_once times }
{
    match times {
        Times::Once => true,
        _ => false,
    }
}

impl Equated {
    /// What conjuncts equate, by the places of the fields that they are equations of.
    pub fn of(alloc: Global, places: Vec<Option<u32>>) -> Result<Equated, AllocError>
        ensures { IfOk result (λ e. e ≡ places.items) }
    {
        let times = times_of(alloc, places.as_slice())?;
        Ok(Equated { places, times })
    }

    /// Whether the field at a place has exactly one equation.
    #[tactic(auto, using(crate::proofs::Tallies::told_once))]
    pub fn is_once(&self, place: u32) -> bool
        ensures { result ≡ nat_eq (count_by (is_place place) self.now) 1 }
    {
        is_once(times_at(&self.times, place))
    }
}
