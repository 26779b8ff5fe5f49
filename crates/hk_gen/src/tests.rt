//! The texts of the smallest size and of one with every kind of handler, as the rules give them.

use crate::generate;
use std::alloc::AllocError;

/// The kernel and the specification of size 1.
const KERNEL: &str = "%struct.proc = type { i32, i32 }
@procs = global [1 x %struct.proc] zeroinitializer, align 4
define i32 @s0(i32 %pid, i32 %x) {
  %c = icmp ult i32 %pid, 1
  br i1 %c, label %ok, label %bad
ok:
  %i = zext i32 %pid to i64
  %p = getelementptr inbounds [1 x %struct.proc], ptr @procs, i64 0, i64 %i, i32 0
  %v = load i32, ptr %p, align 4
  %w = add i32 %v, %x
  store i32 %w, ptr %p, align 4
  ret i32 0
bad:
  ret i32 -1
}
";

const SPEC: &str = "PidT = Index(32, 1)
class S:
    a = Map(PidT, Bits(32))
    b = Map(PidT, Bits(32))
def equiv(kernel, state):
    p = Var(PidT)
    return And(ForAll([p], state.a(p) == kernel.procs[p].f0), ForAll([p], state.b(p) == kernel.procs[p].f1))
def s0(state, pid, x):
    new = state.copy()
    new.a[pid] = state.a(pid) + x
    return ULT(pid, 1), new
";

#[test]
fn the_smallest_workload_is_as_written(rt: HostRuntime) -> Result<(), AllocError> {
    let (kernel, spec) = generate(rt.alloc(), 1)?;
    assert_eq!(rt; kernel.as_slice(), KERNEL.as_bytes());
    assert_eq!(rt; spec.as_slice(), SPEC.as_bytes());
    Ok(())
}
