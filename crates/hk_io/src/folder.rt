//! Files of the system: the trusted edge.
ghost use Rattle.std.specs.Prelude.{◌≡◌, ◌+◌, ◌<◌, ◌≤◌, ◌^◌, length, None, IfOk, IsErrOf, vec_len};
ghost use Rattle.hk_io.specs.Faults.{Rose, CountsLoad};

use crate::fault::{LoadFault, SaveFault};
use crate::shelf::Shelf;
use std::alloc::Global;
use std::fs::{self, File};
use std::io::Read;

// How many bytes one read asks for at most.
const CHUNK: usize = 4096;

/// Files of the system, by path. It tells nothing of what they hold, and counts each fault of the system.
#[derive(Drop)]
pub struct FolderShelf {
    rt: HostRuntime,
    faults: u64,
}

impl FolderShelf {
    ghost use Rattle.hk_io.specs.SystemFaults.{shelf_faults};

    /// The files of the system that the program runs on.
    pub fn new(rt: HostRuntime) -> FolderShelf
        ensures { shelf_faults result ≡ 0 }
    {
        FolderShelf { rt, faults: 0 }
    }
}

// Reads some bytes more, of at most `most`, and answers how many; 0 at the end of the file.
fn read_some(file: &mut File, bytes: &mut Vec<u8>, most: usize) -> Result<usize, LoadFault>
    ensures ok { IfOk result (λ n. vec_len bytes.new ≡ vec_len bytes.old + n) }
    ensures within { IfOk result (λ n. n ≤ most) }
    ensures not_long { IsErrOf result LoadFault.TooLong → ⊥ }
{
    let mut chunk = [0u8; CHUNK];
    let most = most.min(CHUNK);
    let count = file
        .read(&mut chunk[..most])
        .map_err(|_| LoadFault::Failed)?;
    bytes.extend_from_slice(&chunk[..count])?;
    Ok(count)
}

// The bytes of a file of at most `limit` bytes, of which at most one more is read.
fn read_file(rt: &HostRuntime, alloc: Global, name: &str, limit: u32) -> Result<Vec<u8>, LoadFault>
    ensures within { IfOk result (λ bytes. length bytes.items ≤ limit) }
{
    let limit = limit as usize;
    let mut file = File::open(rt, name).map_err(|_| LoadFault::Failed)?;
    let mut bytes = Vec::new(alloc);
    while bytes.len() <= limit {
        let left = limit + 1 - bytes.len();
        if read_some(&mut file, &mut bytes, left)? == 0 {
            return Ok(bytes);
        }
    }
    Err(LoadFault::TooLong)
}

impl Shelf for FolderShelf {
    ghost use Rattle.hk_io.specs.SystemFaults.{shelf_faults};

    ghost held = { λ _. None };

    ghost faults = { shelf_faults };

    fn load(&mut self, alloc: Global, name: &str, limit: u32) -> Result<Vec<u8>, LoadFault> {
        let faults = self.faults;
        let answer = read_file(&self.rt, alloc, name, limit);
        if let Err(LoadFault::Failed) = answer {
            self.faults = faults.saturating_add(1);
        }
        answer
    }

    fn save(&mut self, _alloc: Global, name: &str, bytes: &[u8]) -> Result<(), SaveFault> {
        let faults = self.faults;
        if fs::write(&self.rt, name, bytes).is_err() {
            self.faults = faults.saturating_add(1);
            return Err(SaveFault::Failed);
        }
        Ok(())
    }
}
