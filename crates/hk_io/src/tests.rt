//! What the calls answer, call by call.
use crate::{
    CallList, FileList, FolderShelf, LoadFault, MemShelf, MemSink, PutList, SaveFault, Shelf, Sink,
    SinkFault, StdSink,
};
use std::alloc::{AllocError, Global};
use std::fs;
use std::test::Fail;

// Two files: `a` holds `one`, `b` holds `three`.
fn two_files(alloc: Global) -> Result<FileList, AllocError> {
    let first = (String::from_str(alloc, "a")?, b"one".to_vec(alloc)?);
    let second = (String::from_str(alloc, "b")?, b"three".to_vec(alloc)?);
    Ok(FileList::from_vec(vec![in alloc; first, second]?))
}

fn loads(shelf: &mut MemShelf, alloc: Global, name: &str, limit: u32, wanted: &[u8]) -> bool {
    match shelf.load(alloc, name, limit) {
        Ok(bytes) => bytes.as_slice() == wanted,
        Err(_) => false,
    }
}

fn refuses(shelf: &mut MemShelf, alloc: Global, name: &str, limit: u32, wanted: LoadFault) -> bool {
    match shelf.load(alloc, name, limit) {
        Ok(_) => false,
        Err(fault) => fault == wanted,
    }
}

#[test]
fn a_shelf_in_memory_holds_what_it_was_given(rt: HostRuntime) -> Result<(), Fail> {
    let alloc = rt.alloc();
    let mut shelf = MemShelf::new(two_files(alloc)?, CallList::from_vec(Vec::new(alloc)));
    assert!(rt; loads(&mut shelf, alloc, "a", 3, b"one"));
    assert!(rt; loads(&mut shelf, alloc, "b", 100, b"three"));
    assert!(rt; refuses(&mut shelf, alloc, "b", 4, LoadFault::TooLong));
    assert!(rt; refuses(&mut shelf, alloc, "c", 100, LoadFault::Failed));
    Ok(())
}

#[test]
fn a_saved_file_is_loaded_and_others_stay(rt: HostRuntime) -> Result<(), Fail> {
    let alloc = rt.alloc();
    let mut shelf = MemShelf::new(two_files(alloc)?, CallList::from_vec(Vec::new(alloc)));
    assert_eq!(rt; shelf.save(alloc, "a", b"four"), Ok(()));
    assert_eq!(rt; shelf.save(alloc, "c", b""), Ok(()));
    assert!(rt; loads(&mut shelf, alloc, "a", 4, b"four"));
    assert!(rt; loads(&mut shelf, alloc, "b", 5, b"three"));
    assert!(rt; loads(&mut shelf, alloc, "c", 0, b""));
    Ok(())
}

#[test]
fn listed_calls_fail_loads_and_saves_counted_together(rt: HostRuntime) -> Result<(), Fail> {
    let alloc = rt.alloc();
    let failing = CallList::from_vec(vec![in alloc; 2, 3]?);
    let mut shelf = MemShelf::new(two_files(alloc)?, failing);
    assert!(rt; loads(&mut shelf, alloc, "a", 3, b"one"));
    assert_eq!(rt; shelf.save(alloc, "a", b"lost"), Err(SaveFault::Failed));
    assert!(rt; refuses(&mut shelf, alloc, "b", 5, LoadFault::Failed));
    assert!(rt; loads(&mut shelf, alloc, "a", 3, b"one"));
    assert!(rt; loads(&mut shelf, alloc, "b", 5, b"three"));
    Ok(())
}

#[test]
fn a_sink_in_memory_takes_what_is_listed_and_what_fits(rt: HostRuntime) -> Result<(), Fail> {
    let alloc = rt.alloc();
    let failing = PutList::from_vec(vec![in alloc; (2, 1), (3, 9)]?);
    let mut sink = MemSink::with_room(alloc, 8, failing)?;
    assert_eq!(rt; sink.put(b"ab"), Ok(()));
    assert_eq!(rt; sink.put(b"cd"), Err(SinkFault::Failed { sent: 1 }));
    assert_eq!(rt; sink.put(b"ef"), Err(SinkFault::Failed { sent: 2 }));
    assert_eq!(rt; sink.put(b""), Ok(()));
    assert_eq!(rt; sink.put(b"ghij"), Err(SinkFault::Failed { sent: 3 }));
    assert_eq!(rt; sink.bytes(), b"abcefghi".as_slice());
    Ok(())
}

#[test]
fn files_of_the_system_are_saved_and_loaded(rt: HostRuntime) -> Result<(), Fail> {
    let alloc = rt.alloc();
    let mut shelf = FolderShelf::new(rt);
    let name = "saved_and_loaded.tmp";
    assert_eq!(rt; shelf.save(alloc, name, b"some bytes"), Ok(()));
    let whole = shelf.load(alloc, name, 10)?;
    assert_eq!(rt; whole.as_slice(), b"some bytes".as_slice());
    let cut = shelf.load(alloc, name, 9);
    assert!(rt; matches!(cut, Err(LoadFault::TooLong)));
    fs::remove_file(&rt, name)?;
    let absent = shelf.load(alloc, name, 10);
    assert!(rt; matches!(absent, Err(LoadFault::Failed)));
    let folder = shelf.load(alloc, ".", 10);
    assert!(rt; matches!(folder, Err(LoadFault::Failed)));
    assert_eq!(rt; shelf.save(alloc, ".", b""), Err(SaveFault::Failed));
    Ok(())
}

#[test]
fn standard_output_takes_whole_pieces(rt: HostRuntime) -> Result<(), Fail> {
    let mut sink = StdSink::new(rt);
    assert_eq!(rt; sink.put(b"a piece\n"), Ok(()));
    assert_eq!(rt; sink.put(b""), Ok(()));
    Ok(())
}
