//! The device: each call on its happy path. What each command is answered with, the whole-program cases show.

use crate::limits::LIMITS;
use admin_dev::{Decision, Device, Start, no_memory};
use admin_wire::ReplyBytes;
use cap_table::DeviceCaps;
use std::alloc::{AllocError, Global};
use std::test::Fail;

const CREATE: u8 = 10;

const QUERY: u8 = 12;

const DESTROY: u8 = 13;

const OK: [u8; 8] = [0; 8];

/// The head of an object: the low byte of its type, and its id; then flags.
fn head(kind: u8, id: u8) -> [u8; 16] {
    [kind, 2, 0, 0, id, 0, 0, 0, 0, 0, 0, 0, 0, 0, 0, 0]
}

/// What follows the header for a group.
fn group(id: u8, priority: u8) -> [u8; 18] {
    [0, 2, 0, 0, id, 0, 0, 0, 0, 0, 0, 0, 0, 0, 0, 0, priority, 0]
}

/// For a classifier of these bits of the Ethernet type.
fn classifier(id: u8, high: u8, low: u8) -> [u8; 46] {
    [
        1, 2, 0, 0, id, 0, 0, 0, 0, 0, 0, 0, 0, 0, 0, 0, 1, 0, 0, 0, 0, 0, 0, 0, 1, 0, 0, 0, 14, 0,
        0, 0, 0, 0, 0, 0, 0, 0, 0, 0, 0, 0, 0, 0, high, low,
    ]
}

/// For a rule that queues IPv4.
fn rule(id: u8, group: u8, classifier: u8, priority: u8, vq: u8) -> [u8; 46] {
    [
        2, 2, 0, 0, id, 0, 0, 0, 0, 0, 0, 0, 0, 0, 0, 0, group, 0, 0, 0, classifier, 0, 0, 0,
        priority, 14, 2, 0, vq, 0, 0, 0, 0, 0, 0, 0, 0, 0, 0, 0, 0, 0, 0, 0, 8, 0,
    ]
}

/// Gives a device a command, commits its effect, and gives back the reply.
fn sent(
    device: &mut Device,
    alloc: Global,
    opcode: u8,
    data: &[u8],
    room: u64,
) -> Result<ReplyBytes, AllocError> {
    let mut command = Vec::from_slice(
        alloc,
        &[
            opcode, 0, 0, 0, 0, 0, 0, 0, 0, 0, 0, 0, 0, 0, 0, 0, 0, 0, 0, 0, 0, 0, 0, 0,
        ],
    )?;
    command.extend_from_slice(data)?;
    let Decision { reply, effect } = device.decide(&command, room);
    device.commit(effect);
    Ok(reply)
}

/// How many of the commands, each an opcode and data, are answered one after another by the reply that stands with
/// them.
fn answered(
    device: &mut Device,
    alloc: Global,
    commands: &[(u8, &[u8], [u8; 8])],
) -> Result<usize, AllocError> {
    for (place, (opcode, given, reply)) in commands.iter().enumerate() {
        if sent(device, alloc, *opcode, given, 4096)?.as_slice() != reply.as_slice() {
            return Ok(place);
        }
    }
    Ok(commands.len())
}

/// The reply of a refusal.
fn refused(status: u8, qualifier: u8) -> [u8; 8] {
    [status, 0, qualifier, 0, 0, 0, 0, 0]
}

#[test]
fn obeys_commands(rt: HostRuntime) -> Result<(), Fail> {
    let caps = DeviceCaps::with_all_selectors(4, LIMITS);
    let mut device = Device::new(rt.alloc(), caps, Start::Ready)?;
    let made = [
        (CREATE, &group(1, 5)[..], OK),
        (CREATE, &classifier(7, 255, 255)[..], OK),
        (CREATE, &rule(9, 1, 7, 0, 2)[..], OK),
        (CREATE, &group(1, 5)[..], refused(17, 3)),
        (DESTROY, &head(0, 1)[..], refused(16, 1)),
    ];
    assert_eq!(rt; answered(&mut device, rt.alloc(), &made)?, made.len());
    let told = sent(&mut device, rt.alloc(), QUERY, &head(0, 1), 64)?;
    assert_eq!(rt; told.as_slice(), [0, 0, 0, 0, 0, 0, 0, 0, 5, 0].as_slice());
    Ok(())
}

#[test]
fn want_of_memory_has_a_reply(rt: HostRuntime) {
    assert_eq!(rt; no_memory(8).as_slice(), refused(12, 6).as_slice());
}
