//! What is shown of lines and rows on a sink in memory.
ghost use Rattle.std.specs.Prelude.{◌≡◌, ◌+◌, length, IfOk, OnOk};

use crate::{Part, put_line, put_memory};
use hk_io::{MemSink, PutList, SinkFault};
use ir_ast::{GlobalItem, GlobalTable, Init, IrType, Name};
use ir_layout::{KMemory, ObjectBytes};
use std::alloc::{AllocError, Global};
use std::test::Fail;

// A sink that fails at these puts.
fn failing(alloc: Global, puts: &[(u64, usize)]) -> Result<MemSink, AllocError> {
    MemSink::with_room(alloc, 16384, PutList::from_vec(puts.to_vec(alloc)?))
}

#[test]
fn a_line_over_4096_bytes_is_put_in_pieces(rt: HostRuntime) -> Result<(), Fail> {
    let alloc = rt.alloc();
    let failed = Err(SinkFault::Failed { sent: 0 });
    for (length, call, wanted, shown) in [
        (4095, 2, Ok(()), 4096),
        (4096, 2, failed, 4096),
        (9000, 3, failed, 8192),
    ] {
        let long = vec![in alloc; b'x'; length]?;
        let mut sink = failing(alloc, &[(call, 0)])?;
        assert_eq!(rt; put_line(&mut sink, &[Part::Text(&long)]), wanted);
        assert_eq!(rt; sink.bytes().len(), shown);
    }
    Ok(())
}

fn global(alloc: Global, name: &[u8], constant: bool) -> Result<GlobalItem, AllocError> {
    Ok(GlobalItem {
        line: 1,
        name: Name::copy_of(alloc, name)?,
        constant,
        over: IrType::Int(8),
        init: Init::Zero,
        align: None,
    })
}

// The length of each object in bytes, and the byte at one place in it; the others are zero.
const OBJECTS: [(usize, (usize, u8)); 6] = [
    (18, (17, 255)),
    (4, (0, 9)),
    (1, (0, 10)),
    (300, (0, 0)),
    (40, (3, 1)),
    (16, (0, 171)),
];

// One more global behind the others.
fn add_global(
    alloc: Global,
    globals: &mut GlobalTable,
    name: &[u8],
    constant: bool,
) -> Result<(), Fail>
    ensures { OnOk result (length globals.new ≡ length globals.old + 1) }
{
    let key = Name::copy_of(alloc, name)?;
    globals.add(key, global(alloc, name, constant)?)?;
    Ok(())
}

fn table(alloc: Global) -> Result<GlobalTable, Fail>
    ensures { IfOk result (λ t. length t ≡ 6) }
{
    let mut globals = GlobalTable::new(alloc);
    add_global(alloc, &mut globals, b"fd", false)?;
    add_global(alloc, &mut globals, b"limit", true)?;
    add_global(alloc, &mut globals, b"a b", false)?;
    add_global(alloc, &mut globals, b"unused", false)?;
    add_global(alloc, &mut globals, b"", false)?;
    add_global(alloc, &mut globals, b"procs.1", false)?;
    Ok(globals)
}

fn memory(alloc: Global) -> Result<KMemory, Fail> {
    let mut objects = Vec::new(alloc);
    for (length, (place, byte)) in OBJECTS {
        let mut bytes = vec![in alloc; 0; length]?;
        bytes[place] = byte;
        objects.push(ObjectBytes::new(bytes))?;
    }
    Ok(KMemory::new(objects))
}

#[test]
fn rows_of_sixteen_bytes_stand_in_text_order(rt: HostRuntime) -> Result<(), Fail> {
    let alloc = rt.alloc();
    let (globals, memory) = (table(alloc)?, memory(alloc)?);
    let mut sink = failing(alloc, &[])?;
    assert_eq!(rt; put_memory(&mut sink, &globals, &memory), Ok(()));
    assert_eq!(rt;
        sink.bytes(),
        b"  @fd+16: 00ff\n  @\"a\\20b\"+0: 0a\n  @\"\"+0: 00000001000000000000000000000000\n  @procs.1+0: ab000000000000000000000000000000\n".as_slice()
    );
    Ok(())
}

#[test]
fn after_a_failed_row_nothing_more_is_put(rt: HostRuntime) -> Result<(), Fail> {
    let alloc = rt.alloc();
    let (globals, memory) = (table(alloc)?, memory(alloc)?);
    let mut sink = failing(alloc, &[(2, 5)])?;
    assert_eq!(rt;
        put_memory(&mut sink, &globals, &memory),
        Err(SinkFault::Failed { sent: 5 })
    );
    assert_eq!(rt; sink.bytes(), b"  @fd+16: 00ff\n  @\"a".as_slice());
    Ok(())
}
