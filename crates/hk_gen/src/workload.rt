//! The texts of a workload, handler by handler.

ghost use Rattle.std.specs.Prelude.{◌≡◌, ◌≤◌, ◌++◌, OnOk, IfOk};
ghost use Rattle.hk_gen.specs.Workload.{kernel_text, kernel_head, kernel_handler, spec_text, spec_head, spec_handler, predicate, operation, field_name, operator};

use crate::text::Part::{Number, Words};
use crate::text::put_lines;
use std::alloc::{AllocError, Global};

/// Bytes that suffice for what stands before the handlers of a kernel, and for one of them.
const KERNEL_HEAD: usize = 128;

const KERNEL_HANDLER: usize = 400;

/// Bytes that suffice for what stands before the handlers of a specification, and for one of them.
const SPEC_HEAD: usize = 256;

const SPEC_HANDLER: usize = 128;

/// The comparison of handler `k`: every fourth one lets the number of processes pass.
fn predicate_of(k: u32) -> &'static [u8]
    ensures { result.now ≡ predicate k }
{
    if k % 4 == 3 { b"ule" } else { b"ult" }
}

/// What handler `k` does to its field.
fn operation_of(k: u32) -> &'static [u8]
    ensures { result.now ≡ operation k }
{
    match k % 3 {
        0 => b"add",
        1 => b"xor",
        _ => b"sub",
    }
}

/// The same in a specification.
fn operator_of(k: u32) -> &'static [u8]
    ensures { result.now ≡ operator k }
{
    match k % 3 {
        0 => b"+",
        1 => b"^",
        _ => b"-",
    }
}

/// The name of the field of handler `k` in a specification.
fn field_name_of(k: u32) -> &'static [u8]
    ensures { result.now ≡ field_name k }
{
    if k % 2 == 0 { b"a" } else { b"b" }
}

/// Adds handler `k` of the kernel for `n` processes.
fn put_kernel_handler(text: &mut Vec<u8>, n: u32, k: u32) -> Result<(), AllocError>
    ensures { OnOk result (text.new.items ≡ text.old.items ++ kernel_handler n k) }
{
    put_lines(
        text,
        &[
            &[
                Words(b"define i32 @s"),
                Number(k),
                Words(b"(i32 %pid, i32 %x) {"),
            ],
            &[
                Words(b"  %c = icmp "),
                Words(predicate_of(k)),
                Words(b" i32 %pid, "),
                Number(n),
            ],
            &[Words(b"  br i1 %c, label %ok, label %bad")],
            &[Words(b"ok:")],
            &[Words(b"  %i = zext i32 %pid to i64")],
            &[
                Words(b"  %p = getelementptr inbounds ["),
                Number(n),
                Words(b" x %struct.proc], ptr @procs, i64 0, i64 %i, i32 "),
                Number(k % 2),
            ],
            &[Words(b"  %v = load i32, ptr %p, align 4")],
            &[
                Words(b"  %w = "),
                Words(operation_of(k)),
                Words(b" i32 %v, %x"),
            ],
            &[Words(b"  store i32 %w, ptr %p, align 4")],
            &[Words(b"  ret i32 0")],
            &[Words(b"bad:")],
            &[Words(b"  ret i32 -1")],
            &[Words(b"}")],
        ],
    )
}

/// Adds handler `k` of the specification for `n` processes.
fn put_spec_handler(text: &mut Vec<u8>, n: u32, k: u32) -> Result<(), AllocError>
    ensures { OnOk result (text.new.items ≡ text.old.items ++ spec_handler n k) }
{
    put_lines(
        text,
        &[
            &[Words(b"def s"), Number(k), Words(b"(state, pid, x):")],
            &[Words(b"    new = state.copy()")],
            &[
                Words(b"    new."),
                Words(field_name_of(k)),
                Words(b"[pid] = state."),
                Words(field_name_of(k)),
                Words(b"(pid) "),
                Words(operator_of(k)),
                Words(b" x"),
            ],
            &[Words(b"    return ULT(pid, "), Number(n), Words(b"), new")],
        ],
    )
}

/// Adds what stands before the handlers of the kernel for `n` processes.
fn put_kernel_head(text: &mut Vec<u8>, n: u32) -> Result<(), AllocError>
    ensures { OnOk result (text.new.items ≡ text.old.items ++ kernel_head n) }
{
    put_lines(
        text,
        &[
            &[Words(b"%struct.proc = type { i32, i32 }")],
            &[
                Words(b"@procs = global ["),
                Number(n),
                Words(b" x %struct.proc] zeroinitializer, align 4"),
            ],
        ],
    )
}

/// Adds what stands before the transitions of the specification for `n` processes.
fn put_spec_head(text: &mut Vec<u8>, n: u32) -> Result<(), AllocError>
    ensures { OnOk result (text.new.items ≡ text.old.items ++ spec_head n) }
{
    put_lines(
        text,
        &[
            &[Words(b"PidT = Index(32, "), Number(n), Words(b")")],
            &[Words(b"class S:")],
            &[Words(b"    a = Map(PidT, Bits(32))")],
            &[Words(b"    b = Map(PidT, Bits(32))")],
            &[Words(b"def equiv(kernel, state):")],
            &[Words(b"    p = Var(PidT)")],
            &[Words(
                b"    return And(ForAll([p], state.a(p) == kernel.procs[p].f0), ForAll([p], state.b(p) == kernel.procs[p].f1))",
            )],
        ],
    )
}

/// The kernel text for `n` processes, with as many handlers.
fn kernel_of(alloc: Global, n: u32) -> Result<Vec<u8>, AllocError>
    requires { n ≤ 64 }
    ensures { IfOk result (λ text. text.items ≡ kernel_text n) }
{
    let mut text = Vec::with_capacity(alloc, KERNEL_HEAD + n as usize * KERNEL_HANDLER)?;
    put_kernel_head(&mut text, n)?;
    for k in 0..n {
        put_kernel_handler(&mut text, n, k)?;
    }
    Ok(text)
}

/// The specification text for `n` processes, with as many handlers.
fn spec_of(alloc: Global, n: u32) -> Result<Vec<u8>, AllocError>
    requires { n ≤ 64 }
    ensures { IfOk result (λ text. text.items ≡ spec_text n) }
{
    let mut text = Vec::with_capacity(alloc, SPEC_HEAD + n as usize * SPEC_HANDLER)?;
    put_spec_head(&mut text, n)?;
    for k in 0..n {
        put_spec_handler(&mut text, n, k)?;
    }
    Ok(text)
}

/// The kernel and the specification of a workload of `n` handlers over `n` processes, as texts.
///
/// The condition is a size from 1 to 64.
pub fn generate(alloc: Global, n: u32) -> Result<(Vec<u8>, Vec<u8>), AllocError>
    requires some { 1 ≤ n }
    requires few { n ≤ 64 }
    ensures kernel { IfOk result (λ texts. texts.0.items ≡ kernel_text n) }
    ensures spec { IfOk result (λ texts. texts.1.items ≡ spec_text n) }
{
    let kernel = kernel_of(alloc, n)?;
    let spec = spec_of(alloc, n)?;
    Ok((kernel, spec))
}
