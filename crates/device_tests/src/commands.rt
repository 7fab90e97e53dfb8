//! Commands and replies in bytes.

use admin_wire::{
    CapData, Command, ObjData, ObjHead, RawActions, Reply, VIRTIO_ADMIN_CMD_RESOURCE_OBJ_CREATE,
    VIRTIO_NET_RESOURCE_OBJ_FF_GROUP, WireErr, opcode_of, put_command, put_reply, read_command,
    read_reply,
};
use arrayvec::ArrayVec;
use std::test::Fail;

// Create group 1 with priority 5.
const CREATE: [u8; 42] = [
    0x0a, 0, 0, 0, 0, 0, 0, 0, 0, 0, 0, 0, 0, 0, 0, 0, 0, 0, 0, 0, 0, 0, 0, 0, // header
    0, 2, 0, 0, 1, 0, 0, 0, 0, 0, 0, 0, 0, 0, 0, 0, // type, id, flags
    5, 0, // priority
];

// Set the actions drop and queue.
const SET_ACTIONS: [u8; 42] = [
    9, 0, 0, 0, 0, 0, 0, 0, 0, 0, 0, 0, 0, 0, 0, 0, 0, 0, 0, 0, 0, 0, 0, 0, // header
    2, 8, 0, 0, 0, 0, 0, 0, // capability id
    2, 0, 0, 0, 0, 0, 0, 0, 1, 2, // count, actions
];

const GROUP: ObjHead = ObjHead {
    type_code: VIRTIO_NET_RESOURCE_OBJ_FF_GROUP,
    id: 1,
    flags: 0,
};

#[test]
fn reads_commands(rt: HostRuntime) {
    assert_eq!(rt;
        opcode_of(&CREATE),
        Some(VIRTIO_ADMIN_CMD_RESOURCE_OBJ_CREATE)
    );
    let create = Command::Create(GROUP, ObjData::Group(5));
    assert_eq!(rt; read_command(&CREATE), Ok(create));
    assert_eq!(rt; read_command(&CREATE[..41]), Err(WireErr::ShortData));
}

#[test]
fn writes_commands(rt: HostRuntime) {
    let create = Command::Create(GROUP, ObjData::Group(5));
    assert_eq!(rt; put_command(&create).as_slice(), CREATE.as_slice());
    let actions = RawActions {
        drop: true,
        queue: true,
        other: false,
    };
    let set = Command::CapSet(CapData::Actions(actions));
    assert_eq!(rt; put_command(&set).as_slice(), SET_ACTIONS.as_slice());
}

#[test]
fn writes_and_reads_a_reply(rt: HostRuntime) -> Result<(), Fail> {
    let mut result = ArrayVec::new();
    result
        .try_extend_from_slice(&[9, 8])
        .ok()
        .ok_or("two bytes fit")?;
    let reply = Reply {
        status: 0x16,
        qualifier: 3,
        result,
    };
    let bytes = put_reply(&reply, 9);
    assert_eq!(rt; bytes.as_slice(), [0x16, 0, 3, 0, 0, 0, 0, 0, 9].as_slice());
    let whole = put_reply(&reply, 10);
    assert_eq!(rt; read_reply(whole.as_slice()), Some(reply));
    Ok(())
}
