//! Guest memory.

use guest_mem::{GuestMem, MemErr};
use std::test::Fail;

#[test]
fn answers_each_call(rt: HostRuntime) -> Result<(), Fail> {
    let mut mem = GuestMem::zeros(rt.alloc(), 8)?;
    assert_eq!(rt; mem.write(6, &[1, 2]), Ok(()));
    assert_eq!(rt; mem.write(7, &[3, 4]), Err(MemErr::Outside(7, 2)));
    let mut buf = [9; 3];
    assert_eq!(rt; mem.read(5, &mut buf), Ok(()));
    assert_eq!(rt; buf, [0, 1, 2]);
    assert_eq!(rt;
        mem.read(u64::MAX, &mut buf),
        Err(MemErr::Outside(u64::MAX, 3))
    );
    assert_eq!(rt; GuestMem::of([5, 6].to_vec(rt.alloc())?).len(), 2);
    Ok(())
}
