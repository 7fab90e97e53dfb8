//! Capabilities of a device and of its driver.

use crate::limits::LIMITS;
use admin_wire::{CapData, RawActions, WireErr};
use arrayvec::ArrayVec;
use cap_table::{
    CapErr, DeviceCaps, DriverCaps, Start, Verdict, cap_result, has_opcode, has_other_opcode,
    is_opcode_in, is_supported, list_bytes, list_words, may_set, opcode_bytes, opcodes_used,
};
use ff_headers::{Kind, Limits, Selector};
use std::test::Fail;

#[test]
fn capabilities_hold_what_they_were_given(rt: HostRuntime) {
    let caps = DeviceCaps::with_all_selectors(4, LIMITS);
    assert_eq!(rt; caps.pairs(), 4);
    assert_eq!(rt; caps.limits().groups, 2);
    assert_eq!(rt; caps.selectors().len(), 5);
    let driver = DriverCaps::same_as(&caps);
    assert_eq!(rt; driver.limits().groups, 2);
    assert_eq!(rt; driver.selectors().len(), 5);
    assert!(rt; driver.has_action(2));
    assert!(rt; !DriverCaps::unset().has_action(2));
    let wanted = [Selector::new(Kind::Eth, 0, &[1; 14])];
    assert!(rt; driver.has_selectors(&wanted));
    assert!(rt; is_supported(3, driver.selectors(), 0, &wanted[0]));
    assert!(rt; !DriverCaps::unset().has_selectors(&wanted));
    assert_eq!(rt; DeviceCaps::new(1, LIMITS, ArrayVec::new()).pairs(), 1);
}

#[test]
fn a_driver_sets_capabilities(rt: HostRuntime) {
    let caps = DeviceCaps::with_all_selectors(4, LIMITS);
    let actions = RawActions {
        drop: true,
        queue: false,
        other: false,
    };
    let wanted = CapData::Actions(actions);
    assert_eq!(rt; may_set(&caps, &wanted), Ok(()));
    let mut driver = DriverCaps::same_as(&caps).copy();
    driver.set(&CapData::Actions(actions));
    assert!(rt; !driver.has_action(2));
    let above = Limits {
        groups: 3,
        ..LIMITS
    };
    assert_eq!(rt; may_set(&caps, &CapData::Limits(above)), Err(CapErr::Above));
}

#[test]
fn a_device_tells_of_itself(rt: HostRuntime) -> Result<(), Fail> {
    let caps = DeviceCaps::with_all_selectors(4, LIMITS);
    let limits = cap_result(&caps, 0x0800).ok_or("the limits are there")?;
    let told = [2, 0, 0, 0, 4, 0, 0, 0, 8, 0, 0, 0, 8, 0, 0, 0, 15, 3, 0, 0];
    assert_eq!(rt; limits.as_slice(), told.as_slice());
    assert_eq!(rt; list_words()[32], 7);
    assert_eq!(rt; list_bytes().len(), 264);
    assert_eq!(rt; opcode_bytes(), [131, 63, 0, 0, 0, 0, 0, 0]);
    Ok(())
}

#[test]
fn opcodes_are_bits(rt: HostRuntime) {
    assert!(rt; has_opcode(13));
    assert!(rt; is_opcode_in(Start::Ready.opcodes(), 13));
    assert!(rt; !is_opcode_in(Start::Reset.opcodes(), 13));
    assert!(rt; has_other_opcode(4));
    assert_eq!(rt; opcodes_used(0x80), 0x83);
}

#[test]
fn a_fault_has_a_verdict(rt: HostRuntime) {
    assert_eq!(rt;
        Verdict::of_fault(WireErr::ShortData),
        Verdict::INVALID_COMMAND
    );
}
