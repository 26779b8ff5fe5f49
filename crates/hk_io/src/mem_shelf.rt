//! A shelf in memory, which fails where it is told to.
ghost use Rattle.std.specs.Prelude.{◌≡◌, ◌≢◌, ◌<◌, ◌≤◌, ◌^◌, ℕ, List, length, true, false, Some, not, ◌||◌, is_none, is_ok, is_some, if◌then◌else◌, IsSome, IsSomeAnd, IsErrOf, IsTrue, ◌↔◌, IfOk, OnOk};
ghost use Rattle.hk_io.specs.Faults.{Rose, CountsLoad};
ghost use Rattle.hk_io.specs.Held.{held_under, with_file};
ghost use Rattle.hk_io.specs.Memory.{Answers, within_limit, loaded, is_failed, is_listed, counted, with_saved};

use crate::fault::{LoadFault, SaveFault};
use crate::lists::{CallList, FileList};
use crate::shelf::Shelf;
use std::alloc::Global;

/// Files in memory. Its calls are counted from 1, loads and saves together; it fails at the listed ones,
/// and where a file is loaded that is not there.
#[derive(Drop)]
pub struct MemShelf {
    files: FileList,
    failing: CallList,
    calls: u64,
    faults: u64,
}

impl MemShelf {
    ghost use Rattle.hk_io.specs.ShelfStates.{shelf_state};

    /// A shelf with these files that fails at these calls.
    pub fn new(files: FileList, failing: CallList) -> MemShelf
        ensures { shelf_state result ≡ record { files = files; failing = failing; calls = 0; faults = 0 } }
    {
        MemShelf {
            files,
            failing,
            calls: 0,
            faults: 0,
        }
    }

    // Counts a call, which fails where it is a listed one, or `fails` by itself.
    fn begin(&mut self, fails: bool) -> bool
        ensures fails { result ≡ (is_listed (shelf_state self.old) || fails) }
        ensures state { shelf_state self.new ≡ counted (shelf_state self.old) result }
        ensures files { self.new.files ≡ self.old.files }
        ensures rose { IsTrue result → Rose self.old.faults self.new.faults }
        ensures same { IsTrue (not result) → self.new.faults ≡ self.old.faults }
        ensures later { self.old.faults ≤ self.new.faults }
        ensures fits { self.new.faults < 2 ^ 64 }
    {
        self.calls = self.calls.saturating_add(1);
        let fails = self.failing.has(self.calls) || fails;
        let faults = self.faults;
        if fails {
            self.faults = faults.saturating_add(1);
        }
        fails
    }
}

// The bytes of a file of at most `limit` bytes.
fn copy_of(files: &FileList, alloc: Global, name: &str, limit: u32) -> Result<Vec<u8>, LoadFault>
    ensures answer { Answers result (within_limit (held_under (Some files.now) name.now) limit) }
    ensures found { IfOk result (λ bytes. held_under (Some files.now) name.now ≡ Some bytes.items) }
    ensures within { IfOk result (λ bytes. length bytes.items ≤ limit) }
    ensures too_long { IsErrOf result LoadFault.TooLong →
        IsSomeAnd (held_under (Some files.now) name.now) (λ bytes. limit < length bytes) }
{
    let bytes = files.find(name).ok_or(LoadFault::Failed)?;
    if bytes.len() > limit as usize {
        return Err(LoadFault::TooLong);
    }
    Ok(Vec::from_slice(alloc, bytes)?)
}

impl Shelf for MemShelf {
    ghost use Rattle.hk_io.specs.ShelfStates.{shelf_state};

    ghost held = { λ s. Some (shelf_state s).files };

    ghost faults = { λ s. (shelf_state s).faults };

    fn load(&mut self, alloc: Global, name: &str, limit: u32) -> Result<Vec<u8>, LoadFault>
        ensures found { IfOk result (λ bytes. held_under (Some (shelf_state self.old).files) name.now ≡ Some bytes.items) }
        ensures within { IfOk result (λ bytes. length bytes.items ≤ limit) }
        ensures counts { CountsLoad result (shelf_state self.old).faults (shelf_state self.new).faults }
        ensures too_long { IsErrOf result LoadFault.TooLong →
            IsSomeAnd (held_under (Some (shelf_state self.old).files) name.now) (λ bytes. limit < length bytes) }
        ensures unchanged { (shelf_state self.new).files ≡ (shelf_state self.old).files }
        ensures later { (shelf_state self.old).faults ≤ (shelf_state self.new).faults }
        ensures fits { (shelf_state self.new).faults < 2 ^ 64 }
        ensures answer { Answers result (loaded (shelf_state self.old) name.now limit) }
        ensures state { shelf_state self.new ≡
            counted (shelf_state self.old) (is_failed (loaded (shelf_state self.old) name.now limit)) }
    {
        let answer = copy_of(&self.files, alloc, name, limit);
        if self.begin(matches!(answer, Err(LoadFault::Failed))) {
            return Err(LoadFault::Failed);
        }
        answer
    }

    fn save(&mut self, alloc: Global, name: &str, bytes: &[u8]) -> Result<(), SaveFault>
        ensures saved { OnOk result (held_under (Some (shelf_state self.new).files) name.now ≡ Some bytes.now) }
        ensures others { (other : List ℕ) → other ≢ name.now →
            held_under (Some (shelf_state self.new).files) other ≡ held_under (Some (shelf_state self.old).files) other }
        ensures failed { IsErrOf result SaveFault.Failed → Rose (shelf_state self.old).faults (shelf_state self.new).faults }
        ensures unsaved { IsErrOf result SaveFault.Failed → (shelf_state self.new).files ≡ (shelf_state self.old).files }
        ensures still { OnOk result ((shelf_state self.new).faults ≡ (shelf_state self.old).faults) }
        ensures memory { IsErrOf result SaveFault.Memory →
            ((shelf_state self.new).files ≡ (shelf_state self.old).files) × ((shelf_state self.new).faults ≡ (shelf_state self.old).faults) }
        ensures later { (shelf_state self.old).faults ≤ (shelf_state self.new).faults }
        ensures fits { (shelf_state self.new).faults < 2 ^ 64 }
        ensures listed { IsErrOf result SaveFault.Failed ↔ IsTrue (is_listed (shelf_state self.old)) }
        ensures state { shelf_state self.new ≡ counted
            (if is_ok result then with_saved (shelf_state self.old) name.now bytes.now else shelf_state self.old)
            (is_listed (shelf_state self.old)) }
    {
        if self.begin(false) {
            return Err(SaveFault::Failed);
        }
        self.files.set(alloc, name, bytes)?;
        Ok(())
    }
}
