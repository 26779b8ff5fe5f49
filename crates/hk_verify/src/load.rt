//! Files that the words of a command name, loaded in the order of the words.

ghost use Rattle.std.specs.Prelude.{◌≡◌, ◌∷◌, [], IfOk, IfErr};
ghost use Rattle.std.specs.Result.{result_err};
ghost use Rattle.hk_verify.specs.Inputs.{AreLoaded, CountsLoads, IsLoaded, IsLoadFault, IsLoadingFault, asked, seen};

use crate::answer::TopFault;
use hk_io::{LoadFault, Shelf};
use std::alloc::Global;

/// The word that names the first file, counted from 0.
const FIRST_WORD: u32 = 1;

/// The word that names the second file.
const SECOND_WORD: u32 = 2;

/// The word that names the third file.
const THIRD_WORD: u32 = 3;

/// The bytes of both files.
#[derive(Drop)]
pub struct Texts {
    pub first: Vec<u8>,
    pub second: Vec<u8>,
}

/// The bytes of three files.
#[derive(Drop)]
pub struct ThreeTexts {
    pub both: Texts,
    pub third: Vec<u8>,
}

/// A file that is asked for: its name, and how many bytes it may have.
#[derive(Drop)]
pub struct Wanted<'x> {
    pub name: &'x str,
    pub limit: u32,
}

/// Loads the file of a word.
fn load<F: Shelf>(
    alloc: Global,
    shelf: &mut F,
    word: u32,
    wanted: &Wanted,
) -> Result<Vec<u8>, TopFault>
    ensures loaded { IfOk result (λ text. IsLoaded (F.held shelf.old) (asked word wanted.now.name.now wanted.now.limit) text.items) }
    ensures fault { IfErr result
        (IsLoadFault (seen (F.held shelf.old) (F.faults shelf.old) (F.faults shelf.new)) (asked word wanted.now.name.now wanted.now.limit)) }
    ensures counts { CountsLoads (result_err result) (F.faults shelf.old) (F.faults shelf.new) }
    ensures held { F.held shelf.new ≡ F.held shelf.old }
{
    match shelf.load(alloc, wanted.name, wanted.limit) {
        Ok(text) => Ok(text),
        Err(LoadFault::Failed) => Err(TopFault::Read { word }),
        Err(LoadFault::TooLong) => Err(TopFault::Long { word }),
        Err(LoadFault::Memory) => Err(TopFault::Memory),
    }
}

/// Loads the file of the word 1.
pub fn load_first<F: Shelf>(
    alloc: Global,
    shelf: &mut F,
    first: &Wanted,
) -> Result<Vec<u8>, TopFault>
    ensures loaded { IfOk result (λ text. AreLoaded (F.held shelf.old) (asked 1 first.now.name.now first.now.limit ∷ []) (text.items ∷ [])) }
    ensures fault { IfErr result (IsLoadingFault (seen (F.held shelf.old) (F.faults shelf.old) (F.faults shelf.new)) (asked 1 first.now.name.now first.now.limit ∷ [])) }
    ensures counts { CountsLoads (result_err result) (F.faults shelf.old) (F.faults shelf.new) }
    ensures held { F.held shelf.new ≡ F.held shelf.old }
{
    load(alloc, shelf, FIRST_WORD, first)
}

/// Loads the files of the words 1 and 2; the second is loaded only behind the first.
pub fn load_both<F: Shelf>(
    alloc: Global,
    shelf: &mut F,
    first: &Wanted,
    second: &Wanted,
) -> Result<Texts, TopFault>
    ensures loaded { IfOk result (λ texts. AreLoaded (F.held shelf.old)
        (asked 1 first.now.name.now first.now.limit ∷ asked 2 second.now.name.now second.now.limit ∷ []) (texts.first.items ∷ texts.second.items ∷ [])) }
    ensures fault { IfErr result (IsLoadingFault (seen (F.held shelf.old) (F.faults shelf.old) (F.faults shelf.new))
        (asked 1 first.now.name.now first.now.limit ∷ asked 2 second.now.name.now second.now.limit ∷ [])) }
    ensures counts { CountsLoads (result_err result) (F.faults shelf.old) (F.faults shelf.new) }
    ensures held { F.held shelf.new ≡ F.held shelf.old }
{
    let first = load(alloc, shelf, FIRST_WORD, first)?;
    let second = load(alloc, shelf, SECOND_WORD, second)?;
    Ok(Texts { first, second })
}

/// Loads the files of the words 1 to 3, each only behind the one before it.
pub fn load_three<F: Shelf>(
    alloc: Global,
    shelf: &mut F,
    first: &Wanted,
    second: &Wanted,
    third: &Wanted,
) -> Result<ThreeTexts, TopFault>
    ensures loaded { IfOk result (λ texts. AreLoaded (F.held shelf.old)
        (asked 1 first.now.name.now first.now.limit ∷ asked 2 second.now.name.now second.now.limit ∷ asked 3 third.now.name.now third.now.limit ∷ []) (texts.both.first.items ∷ texts.both.second.items ∷ texts.third.items ∷ [])) }
    ensures fault { IfErr result (IsLoadingFault (seen (F.held shelf.old) (F.faults shelf.old) (F.faults shelf.new))
        (asked 1 first.now.name.now first.now.limit ∷ asked 2 second.now.name.now second.now.limit ∷ asked 3 third.now.name.now third.now.limit ∷ [])) }
    ensures counts { CountsLoads (result_err result) (F.faults shelf.old) (F.faults shelf.new) }
    ensures held { F.held shelf.new ≡ F.held shelf.old }
{
    let both = match load_both(alloc, shelf, first, second) {
        Ok(both) => both,
        Err(fault) => return Err(fault),
    };
    match load(alloc, shelf, THIRD_WORD, third) {
        Ok(third) => Ok(ThreeTexts { both, third }),
        Err(fault) => Err(fault),
    }
}
