//! What no clause says: that a frame is used again with ample memory, and what it holds then.

use super::*;
use std::alloc::AllocError;

#[test]
fn variables_go_with_their_quantifier(rt: HostRuntime) -> Result<(), AllocError> {
    let mut frame = Frame::new(rt.alloc());
    frame.put_local(Number {
        width: 8,
        bits: 200,
    })?;
    frame.enter(&[3, 4], 12, 7)?;
    frame.enter(&[2], 2, 1)?;
    assert_eq!(rt; (frame.index(0), frame.index(1), frame.index(2)), (1, 3, 1));
    frame.leave(1);
    assert_eq!(rt; (frame.index(0), frame.index(1), frame.index(2)), (1, 3, 0));
    frame.leave(2);
    assert_eq!(rt; frame.index(0), 0);
    assert_eq!(rt;
        (frame.width(0), frame.local(0), frame.local(1)),
        (8, 200, 0)
    );
    frame.clear();
    assert_eq!(rt; frame.width(0), 0);
    Ok(())
}
