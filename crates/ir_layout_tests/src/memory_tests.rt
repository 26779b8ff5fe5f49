//! Byte memory with ample memory.

use ir_layout::{KMemory, ObjectBytes};
use std::test::Fail;

#[test]
fn bytes_are_little_endian(rt: HostRuntime) -> Result<(), Fail> {
    let mut objects = Vec::new(rt.alloc());
    objects.push(ObjectBytes::new([1, 2, 3, 4].to_vec(rt.alloc())?))?;
    let memory = KMemory::new(objects);
    let mut copied = memory.copy(rt.alloc())?;
    copied.store(0, 1, 2, 258);
    assert_eq!(rt; copied.load(0, 0, 4), 67_174_913);
    assert_eq!(rt; memory.load(0, 0, 4), 67_305_985);
    Ok(())
}
