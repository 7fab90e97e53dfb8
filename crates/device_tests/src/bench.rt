//! A bench: a command through its ring, and a frame.

use crate::limits::LIMITS;
use admin_dev::Start;
use cap_table::DeviceCaps;
use ff_headers::Action;
use std::test::Fail;
use steer::Bench;

// What a list query is answered with: all opcodes.
const OPCODES: [u8; 16] = [0, 0, 0, 0, 0, 0, 0, 0, 131, 63, 0, 0, 0, 0, 0, 0];

#[test]
fn a_command_and_a_frame(rt: HostRuntime) -> Result<(), Fail> {
    let caps = DeviceCaps::with_all_selectors(4, LIMITS);
    let mut bench = Bench::new(rt.alloc(), caps, Start::Ready)?;
    let reply = bench.admin(&[0; 24], 16);
    assert_eq!(rt; reply.as_slice(), OPCODES.as_slice());
    assert_eq!(rt; bench.frame(&[]), Action::Default);
    Ok(())
}
