//! The lists that a shelf and a sink in memory are made of.
ghost use Rattle.std.specs.Prelude.{◌≡◌, ◌<◌, length, IfSome, List, ℕ, map, string_bytes, bytes_eq, nat_eq, OnOk, OnErr, find};
ghost use Rattle.std.specs.List.{list_any, position_from};
ghost use Rattle.std.specs.Option.{option_copied, option_map};
ghost use Rattle.hk_io.specs.Held.{Files, file_of, held_under, with_file};

use std::alloc::{AllocError, Global};
use std::marker::Model;

/// Files, each with its name and its bytes.
#[derive(Drop)]
pub struct FileList {
    files: Vec<(String, Vec<u8>)>,
}

impl Model for FileList {
    ghost Value = { Files };

    ghost view = { λ a. map file_of a.files.items };
}

impl FileList {
    pub fn from_vec(files: Vec<(String, Vec<u8>)>) -> FileList
        ensures { result ≡ map file_of files.items }
    {
        FileList { files }
    }

    pub fn into_vec(self) -> Vec<(String, Vec<u8>)>
        ensures { map file_of result.items ≡ self }
    {
        self.files
    }

    // The bytes of the first file of a name.
    pub(crate) fn find(&self, name: &str) -> Option<&[u8]>
        ensures { option_copied result ≡ held_under (Some self.now) name.now }
    {
        bytes_of(&self.files, name)
    }

    // Makes these the bytes of a name.
    pub(crate) fn set(&mut self, alloc: Global, name: &str, bytes: &[u8]) -> Result<(), AllocError>
        ensures ok { OnOk result (self.new ≡ with_file self.old name.now bytes.now) }
        ensures err { OnErr result (self.new ≡ self.old) }
    {
        set_bytes(&mut self.files, alloc, name, bytes)
    }
}

/// The numbers of calls, from 1.
#[derive(Drop)]
pub struct CallList {
    calls: Vec<u64>,
}

impl Model for CallList {
    ghost Value = { List ℕ };

    ghost view = { λ a. a.calls.items };
}

impl CallList {
    pub fn from_vec(calls: Vec<u64>) -> CallList
        ensures { result ≡ calls.items }
    {
        CallList { calls }
    }

    pub fn into_vec(self) -> Vec<u64>
        ensures { result.items ≡ self }
    {
        self.calls
    }

    // Whether a call is among them.
    pub(crate) fn has(&self, call: u64) -> bool
        ensures { result ≡ list_any (λ listed. nat_eq listed call) self.now }
    {
        self.calls.iter().any(|listed| *listed == call)
    }
}

/// The numbers of calls, from 1, each with the number of bytes that the call still takes.
#[derive(Drop)]
pub struct PutList {
    puts: Vec<(u64, usize)>,
}

impl Model for PutList {
    ghost Value = { List (ℕ × ℕ) };

    ghost view = { λ a. a.puts.items };
}

impl PutList {
    pub fn from_vec(puts: Vec<(u64, usize)>) -> PutList
        ensures { result ≡ puts.items }
    {
        PutList { puts }
    }

    pub fn into_vec(self) -> Vec<(u64, usize)>
        ensures { result.items ≡ self }
    {
        self.puts
    }

    // How many bytes a call takes that is among them.
    pub(crate) fn bytes_at(&self, call: u64) -> Option<usize>
        ensures { result ≡ option_map (λ put. put.1) (find (λ put. nat_eq put.0 call) self.now) }
    {
        put_at(&self.puts, call)
    }
}

// The number beside the first mention of a call.
fn put_at(puts: &[(u64, usize)], call: u64) -> Option<usize>
    ensures { result ≡ option_map (λ put. put.1) (find (λ put. nat_eq put.0 call) puts.now) }
{
    let (_, bytes) = puts.iter().find(|put| put.0 == call)?;
    Some(*bytes)
}

// The place of the first file of a name.
fn place_of(files: &[(String, Vec<u8>)], name: &str) -> Option<usize>
    ensures within { IfSome result (λ place. place < length files.now) }
    ensures place { result ≡ position_from (λ file. bytes_eq (string_bytes file.0) name.now) 0 files.now }
{
    files.iter().position(|file| file.0.as_str() == name)
}

// The first file of a name.
fn file_named<'a>(files: &'a [(String, Vec<u8>)], name: &str) -> Option<&'a (String, Vec<u8>)>
    ensures { option_copied result ≡ find (λ file. bytes_eq (string_bytes file.0) name.now) files.now }
{
    files.iter().find(|file| file.0.as_str() == name)
}

// The bytes of the first file of a name.
fn bytes_of<'a>(files: &'a [(String, Vec<u8>)], name: &str) -> Option<&'a [u8]>
    ensures { option_copied result ≡ held_under (Some (map file_of files.now)) name.now }
{
    let file = file_named(files, name)?;
    Some(&file.1)
}

// Puts bytes in the place of a file's, or behind all files under a new name.
fn set_bytes(
    files: &mut Vec<(String, Vec<u8>)>,
    alloc: Global,
    name: &str,
    bytes: &[u8],
) -> Result<(), AllocError>
    ensures ok { OnOk result (map file_of files.new.items ≡ with_file (map file_of files.old.items) name.now bytes.now) }
    ensures err { OnErr result (files.new.items ≡ files.old.items) }
{
    let bytes = Vec::from_slice(alloc, bytes)?;
    match place_of(files, name) {
        Some(place) => files[place].1 = bytes,
        None => files.push((String::from_str(alloc, name)?, bytes))?,
    }
    Ok(())
}
