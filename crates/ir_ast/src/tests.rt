//! What no clause says: printed texts, and that the calls succeed with ample memory.

use super::*;
use std::alloc::AllocError;

#[test]
fn codes_and_lines_are_printed(rt: HostRuntime) -> Result<(), AllocError> {
    let alloc = rt.alloc();
    let table = [
        (KernelReason::K1, "K1"),
        (KernelReason::K2, "K2"),
        (KernelReason::K3, "K3"),
        (KernelReason::K4, "K4"),
        (KernelReason::K5, "K5"),
        (KernelReason::K6, "K6"),
        (KernelReason::K7, "K7"),
        (KernelReason::K8, "K8"),
        (KernelReason::K9, "K9"),
        (KernelReason::K10, "K10"),
        (KernelReason::K11, "K11"),
        (KernelReason::K12, "K12"),
        (KernelReason::K13, "K13"),
        (KernelReason::K14, "K14"),
        (KernelReason::K15, "K15"),
    ];
    for (reason, code) in table {
        assert_eq!(rt; format!(in alloc; "{reason}")?.as_str(), code);
    }
    let stop = KernelStop::Refused(KernelFault {
        line: 7,
        reason: KernelReason::K2,
    });
    assert_eq!(rt; format!(in alloc; "{stop}")?.as_str(), "7: K2");
    Ok(())
}

#[test]
fn a_table_keeps_the_first_entry_of_a_name(rt: HostRuntime) -> Result<(), AllocError> {
    let alloc = rt.alloc();
    let mut types: TypeTable = Table::new(alloc);
    let table: [(&[u8], u32, bool); 4] = [
        (b"a", 1, true),
        (b"b", 2, true),
        (b"a", 3, false),
        (b"", 4, true),
    ];
    for (name, line, is_new) in table {
        let entry = TypeEntry {
            line,
            over: IrType::Int(line),
        };
        let added = types.add(Name::copy_of(alloc, name)?, entry);
        assert_eq!(rt; added.is_ok(), is_new, "line {line}");
    }
    assert_eq!(rt; types.len(), 3);
    let places: [(&[u8], Option<u32>); 4] = [
        (b"a", Some(0)),
        (b"b", Some(1)),
        (b"", Some(2)),
        (b"c", None),
    ];
    for (name, place) in places {
        let name = Name::copy_of(alloc, name)?;
        assert!(rt; types.get(&name.copy(alloc)?) == place);
    }
    assert_eq!(rt; types.at(0).line, 1);
    assert_eq!(rt; types.at(2).line, 4);
    Ok(())
}
