//! Functions that come to strays, by hooks.

use ir_check::check;
use ir_layout::Layout;
use ir_read::read_module;
use spec_kernel::KernelNames;
use spec_strays::strays_of;
use std::alloc::{AllocError, Global};
use std::test::Fail;

/// Declared: `hook`, `print` and an intrinsic. `a` calls the hook, `b` prints, `c` calls both `a` and `b`, `d` calls the intrinsic, `e`
/// calls `f`, which calls nothing, `g` calls `h` twice, and `h` calls `c`.
const KERNEL: &[u8] =
    b"declare void @hook()\ndeclare void @print()\ndeclare i32 @llvm.umin.i32(i32, i32)\ndefine void @a() {\ncall void @hook()\nret void\n}\ndefine void @b() {\ncall void @print()\nret void\n}\ndefine void @c() {\ncall void @a()\ncall void @b()\nret void\n}\ndefine i32 @d(i32 %x) {\n%y = call i32 @llvm.umin.i32(i32 %x, i32 7)\nret i32 %y\n}\ndefine void @e() {\ncall void @f()\nret void\n}\ndefine void @f() {\nret void\n}\ndefine void @g() {\ncall void @h()\ncall void @h()\nret void\n}\ndefine void @h() {\ncall void @c()\nret void\n}\n";

/// The flags of `hook`, `print` and the intrinsic, of `a` to `d`, and of `e` to `h`, where `hook` alone is a hook.
const WITH_HOOK: [bool; 11] = [
    false, false, false, false, true, true, false, false, false, true, true,
];

/// The same without hooks.
const WITHOUT: [bool; 11] = [
    false, false, false, true, true, true, false, false, false, true, true,
];

/// Whether the flags of the functions are these, where these are the hooks.
fn are_strays(
    alloc: Global,
    names: &KernelNames<'_>,
    hooks: &[&[u8]],
    expected: &[bool],
) -> Result<bool, AllocError> {
    let strays = strays_of(alloc, names, hooks)?;
    Ok(strays.as_slice() == expected)
}

#[test]
fn strays_are_found(rt: HostRuntime) -> Result<(), Fail> {
    let alloc = rt.alloc();
    let kernel = read_module(alloc, KERNEL)?;
    let layout = Layout::of(alloc, &kernel)?;
    let checked = check(alloc, kernel)?;
    let names = KernelNames::of(alloc, &checked, &layout)?;
    assert!(rt; names.has_widths());
    let with_hook = are_strays(alloc, &names, &[b"hook"], &WITH_HOOK)?;
    assert!(rt; with_hook);
    let without = are_strays(alloc, &names, &[], &WITHOUT)?;
    assert!(rt; without);
    let with_all = are_strays(
        alloc,
        &names,
        &[b"print", b"a", b"hook", b"none"],
        &[false; 11],
    )?;
    assert!(rt; with_all);
    Ok(())
}
