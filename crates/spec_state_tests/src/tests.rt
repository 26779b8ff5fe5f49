//! What is evaluated, against values reckoned by hand.

use crate::samples::{abstraction, entries, has_owner, is_owned, owners_in, places, step_at};
use std::alloc::AllocError;

#[test]
fn some_place_is_sought_among_all(rt: HostRuntime) -> Result<(), AllocError> {
    let alloc = rt.alloc();
    assert!(rt; has_owner(alloc, 0, [1, 2, 3, 7])?);
    assert!(rt; !has_owner(alloc, 7, [1, 2, 3, 8])?);
    assert!(rt; is_owned(alloc, 0, [7, 0, 0, 0])?);
    assert!(rt; !is_owned(alloc, 7, [0, 0, 0, 0])?);
    Ok(())
}

#[test]
fn fields_have_their_equations_values(rt: HostRuntime) -> Result<(), AllocError> {
    let alloc = rt.alloc();
    let state = abstraction(alloc, 5, [1, 2, 3, 7])?;
    assert_eq!(rt; state.as_slice().len(), 2);
    assert!(rt; entries(&state, 0) == [5].as_slice());
    assert!(rt; entries(&state, 1) == [1, 2, 3, 7].as_slice());
    let owners = owners_in(alloc, 5, [9, 8, 7, 6])?;
    assert!(rt; owners.as_slice() == [9, 8, 7, 6].as_slice());
    Ok(())
}

#[test]
fn entries_of_four_keys_stand_in_the_order_of_their_tuples(
    rt: HostRuntime,
) -> Result<(), AllocError> {
    let state = places(rt.alloc())?;
    let wanted: Vec<u64> = (0..60).collect(rt.alloc())?;
    assert!(rt; entries(&state, 0) == wanted.as_slice());
    Ok(())
}

#[test]
fn writes_are_read_back_and_past_the_size_nothing_is_there(
    rt: HostRuntime,
) -> Result<(), AllocError> {
    let alloc = rt.alloc();
    let step = step_at(alloc, 5, [1, 2, 3, 7], 3)?;
    assert!(rt; step.valid);
    assert!(rt; entries(&step.state, 0) == [6].as_slice());
    assert!(rt; entries(&step.state, 1) == [1, 2, 3, 6].as_slice());
    assert_eq!(rt; step.result, Some(7));
    let past = step_at(alloc, 5, [1, 2, 3, 7], 4)?;
    assert!(rt; entries(&past.state, 0) == [6].as_slice());
    assert!(rt; entries(&past.state, 1) == [1, 2, 3, 7].as_slice());
    assert_eq!(rt; past.result, Some(0));
    Ok(())
}

#[test]
fn invalid_transitions_change_nothing(rt: HostRuntime) -> Result<(), AllocError> {
    let step = step_at(rt.alloc(), 200, [1, 2, 3, 7], 1)?;
    assert!(rt; !step.valid);
    assert!(rt; entries(&step.state, 0) == [200].as_slice());
    assert!(rt; entries(&step.state, 1) == [1, 2, 3, 7].as_slice());
    assert_eq!(rt; step.result, Some(2));
    Ok(())
}
