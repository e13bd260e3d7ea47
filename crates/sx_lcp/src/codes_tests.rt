//! Two-step codes of short lists.

use crate::codes::two_step;
use std::test::Fail;

#[test]
fn short_lists(rt: HostRuntime) -> Result<(), Fail> {
    let found = two_step(rt.alloc(), &[3, 3, 3, 3, 5, 5, 9])?;
    assert_eq!(rt; found.bits, 2);
    assert_eq!(rt; found.table.as_slice(), [3, 5, 9].as_slice());
    assert_eq!(rt; found.codes.as_slice(), [0, 0, 0, 0, 1, 1, 2].as_slice());
    assert_eq!(rt; found.escaped.len(), 0);
    let found = two_step(rt.alloc(), &[3, 3, 3, 3, 3, 3, 3, 3, 5, 9])?;
    assert_eq!(rt; found.bits, 1);
    assert_eq!(rt; found.table.as_slice(), [3].as_slice());
    assert_eq!(rt;
        found.codes.as_slice(),
        [0, 0, 0, 0, 0, 0, 0, 0, 1, 1].as_slice()
    );
    assert_eq!(rt; found.escaped.as_slice(), [8, 9].as_slice());
    let found = two_step(rt.alloc(), &[6, 6, 5, 5])?;
    assert_eq!(rt; found.bits, 2);
    assert_eq!(rt; found.table.as_slice(), [5, 6].as_slice());
    assert_eq!(rt; found.codes.as_slice(), [1, 1, 0, 0].as_slice());
    assert_eq!(rt; found.escaped.len(), 0);
    Ok(())
}

#[test]
fn without_a_table(rt: HostRuntime) -> Result<(), Fail> {
    let found = two_step(rt.alloc(), &[])?;
    assert_eq!(rt; (found.bits, found.table.len()), (0, 0));
    assert_eq!(rt; (found.codes.len(), found.escaped.len()), (0, 0));
    let found = two_step(rt.alloc(), &[1, 0])?;
    assert_eq!(rt; (found.bits, found.table.len()), (0, 0));
    assert_eq!(rt; found.codes.as_slice(), [0, 0].as_slice());
    assert_eq!(rt; found.escaped.as_slice(), [0, 1].as_slice());
    Ok(())
}
