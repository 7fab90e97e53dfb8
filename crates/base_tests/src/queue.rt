//! Both ends of a queue, over small memories.

use guest_mem::GuestMem;
use split_queue::{
    DeviceEnd, DriverEnd, DriverErr, Piece, Place, PostErr, RingErr, SetupErr, TakeErr,
};
use std::alloc::{AllocError, Global};
use std::test::Fail;

const RING: Place = Place {
    size: 4,
    desc: 0,
    avail: 64,
    used: 80,
};

// A command of 24 bytes in descriptor 0 with the given next, and room for 8 bytes in descriptor 1. The available index
// is 0.
fn memory(alloc: Global, next: u8) -> Result<GuestMem, AllocError> {
    let mut mem = GuestMem::zeros(alloc, 256)?;
    let _ = mem.write(
        0,
        &[0x80, 0, 0, 0, 0, 0, 0, 0, 0x18, 0, 0, 0, 1, 0, next, 0],
    );
    let _ = mem.write(16, &[0xa0, 0, 0, 0, 0, 0, 0, 0, 8, 0, 0, 0, 2, 0, 0, 0]);
    let _ = mem.write(128, &[7]);
    Ok(mem)
}

#[test]
fn pops_at_the_wrap_and_gives_back(rt: HostRuntime) -> Result<(), Fail> {
    let mut mem = memory(rt.alloc(), 1)?;
    let mut device = DeviceEnd::new(RING, 65535, &mem)?;
    let popped = device.pop(&mem)?;
    let Some(chain) = popped else {
        panic!(rt; "no chain");
    };
    assert_eq!(rt; chain.head, 0);
    assert_eq!(rt; chain.readable.len(), 24);
    assert_eq!(rt; chain.room(), 8);
    assert_eq!(rt;
        chain.writable.as_slice(),
        [Piece { addr: 160, len: 8 }].as_slice()
    );
    device.push_used(&mut mem, chain.head, 8);
    let mut element = [9; 8];
    mem.read(108, &mut element)?;
    assert_eq!(rt; element, [0, 0, 0, 0, 8, 0, 0, 0]);
    assert_eq!(rt; device.pop(&mem)?, None);
    Ok(())
}

#[test]
fn refuses_a_loop_twice(rt: HostRuntime) -> Result<(), Fail> {
    let mem = memory(rt.alloc(), 0)?;
    let mut device = DeviceEnd::new(RING, 65535, &mem)?;
    assert_eq!(rt; device.pop(&mem), Err(RingErr::Loop(0)));
    assert_eq!(rt; device.pop(&mem), Err(RingErr::Loop(0)));
    Ok(())
}

#[test]
fn answers_the_driver(rt: HostRuntime) -> Result<(), Fail> {
    let place = Place {
        size: 2,
        desc: 0,
        avail: 32,
        used: 44,
    };
    let mut mem = GuestMem::zeros(rt.alloc(), 256)?;
    let refused = DriverEnd::new(rt.alloc(), Place { used: 42, ..place }, &mut mem);
    assert_eq!(rt; refused.err(), Some(DriverErr::Setup(SetupErr::Align)));
    let mut driver = DriverEnd::new(rt.alloc(), place, &mut mem)?;
    let pieces = [Piece { addr: 128, len: 8 }; 3];
    assert_eq!(rt; driver.post(&mut mem, &pieces, 1), Err(PostErr::Full(2)));
    assert_eq!(rt; driver.take(&mem), Ok(None));
    mem.write(46, &[1, 0, 1, 0, 0, 0])?;
    assert_eq!(rt; driver.take(&mem), Err(TakeErr::BadId(1)));
    mem.write(46, &[3, 0])?;
    assert_eq!(rt; driver.take(&mem), Err(TakeErr::IdxJump(3)));
    Ok(())
}

#[test]
fn pops_what_was_posted(rt: HostRuntime) -> Result<(), Fail> {
    let mut mem = GuestMem::zeros(rt.alloc(), 256)?;
    let mut driver = DriverEnd::new(rt.alloc(), RING, &mut mem)?;
    mem.write(128, &[0x0a, 0, 0, 0, 0, 0, 0, 0, 0, 1])?;
    mem.write(160, &[2, 0, 0, 0, 0, 0, 0, 0, 0, 0, 0, 0, 0, 3])?;
    let pieces = [
        Piece { addr: 128, len: 10 },
        Piece { addr: 160, len: 14 },
        Piece { addr: 192, len: 8 },
    ];
    let head = driver.post(&mut mem, &pieces, 2)?;
    let mut device = DeviceEnd::new(RING, 0, &mem)?;
    let popped = device.pop(&mem)?;
    let Some(chain) = popped else {
        panic!(rt; "no chain");
    };
    assert_eq!(rt; chain.head, head);
    let joined = [
        0x0a, 0, 0, 0, 0, 0, 0, 0, 0, 1, 2, 0, 0, 0, 0, 0, 0, 0, 0, 0, 0, 0, 0, 3,
    ];
    assert_eq!(rt; chain.readable.as_slice(), joined.as_slice());
    assert_eq!(rt;
        chain.writable.as_slice(),
        [Piece { addr: 192, len: 8 }].as_slice()
    );
    device.push_used(&mut mem, head, 8);
    assert_eq!(rt; driver.take(&mem), Ok(Some((head, 8))));
    Ok(())
}
