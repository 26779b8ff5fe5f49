//! What a checked kernel is asked.

use ir_ast::Name;
use ir_check::{Checked, check};
use ir_read::read_module;
use std::alloc::{AllocError, Global};
use std::test::Fail;

#[test]
fn functions_have_places_orders_and_lengths(rt: HostRuntime) -> Result<(), Fail> {
    let alloc = rt.alloc();
    let text =
        b"declare void @g()\ndefine void @h() {\nret void\n}\ndefine void @f(i1 %c) {\nbr i1 %c, label %a, label %b\nb:\ncall void @h()\ncall void @g()\nret void\na:\ncall void @h()\nbr label %b\n}\n";
    let checked = check(alloc, read_module(alloc, text)?)?;
    assert_eq!(rt; checked.find(&Name::copy_of(alloc, b"g")?), None);
    assert_eq!(rt; checked.find(&Name::copy_of(alloc, b"x")?), None);
    assert_eq!(rt; checked.find(&Name::copy_of(alloc, b"h")?), Some(1));
    match checked.find(&Name::copy_of(alloc, b"f")?) {
        Some(place) => {
            assert_eq!(rt; checked.order(place).as_slice(), [0, 2, 1].as_slice());
            assert_eq!(rt; checked.expanded(place), 8);
        }
        None => assert!(rt; false),
    }
    Ok(())
}

/// The expanded length of the function of a name.
fn length_of(alloc: Global, checked: &Checked, name: &[u8]) -> Result<Option<u32>, AllocError> {
    match checked.find(&Name::copy_of(alloc, name)?) {
        Some(place) => Ok(Some(checked.expanded(place))),
        None => Ok(None),
    }
}

#[test]
fn a_shared_callee_counts_at_each_call(rt: HostRuntime) -> Result<(), Fail> {
    let alloc = rt.alloc();
    let text =
        b"declare void @g()\ndefine void @a() {\ncall void @g()\ncall void @g()\nunreachable\n}\ndefine void @b() {\ncall void @a()\ncall void @a()\nunreachable\n}\ndefine void @c() {\ncall void @b()\ncall void @b()\nunreachable\n}\n";
    let checked = check(alloc, read_module(alloc, text)?)?;
    assert_eq!(rt; length_of(alloc, &checked, b"a")?, Some(3));
    assert_eq!(rt; length_of(alloc, &checked, b"b")?, Some(9));
    assert_eq!(rt; length_of(alloc, &checked, b"c")?, Some(21));
    Ok(())
}
