//! The bytes of administration commands and of their replies.
//!
//! A driver writes a command into the readable part of a descriptor chain, and the device writes a reply into the
//! writable part. This crate reads and writes both, and nothing else: whether a command is obeyed is decided above.
//!
//! The layouts follow the Virtio 1.4 draft ("Group administration commands", "Device resource objects", "Flow filters"
//! of the network device) and `linux/virtio_net_ff.h`. Every number is little endian. Reserved bytes are ignored in
//! reading and written as 0, and bytes past those that a command needs are ignored.
//!
//! What is promised, for every list of bytes and every command:
//! - `read_command` gives the one command that the bytes lay out, or their first fault, in the order of `WireErr`; each
//!   fault comes exactly where its condition holds;
//! - it gives a command that has a layout of its own, so with no odd list or key, exactly where the bytes begin with
//!   that layout, field by field;
//! - `put_command` writes that layout, and what it writes reads as the command;
//! - `put_object_data` writes an object's data alone, as a query is answered with;
//! - `put_reply` writes the reply's bytes, cut to the room, and `read_reply` gives a reply back from its whole bytes;
//! - each call returns; none asks for memory.
//!
//! The definitions are in `specs/`. `Codes` and `Opcodes` have the numbers of the draft and the sizes of all parts.
//! `Wire` has the layout of a command as a whole (`command_of`), over `Headers`, `Objects`, `Capabilities` and `Lists`
//! (of selectors). `Needs` says how many bytes a command needs and when each fault comes. `Layouts` says the layout the
//! other way round, from a command to its fields (`Fields`) and bytes; `LaidOut` says which commands have one, and
//! which bytes begin with it. `Replies` has the bytes of a reply. The law on the length of commands is in `laws`.
#![tactic(auto)]

mod capabilities;
mod codes;
mod command;
mod error;
mod header;
pub mod laws;
mod lists;
mod objects;
mod opcode;
mod put_field;
mod read;
mod reply;
mod write;

pub use codes::{
    VIRTIO_ADMIN_CMD_CAP_ID_LIST_QUERY, VIRTIO_ADMIN_CMD_DEVICE_CAP_GET,
    VIRTIO_ADMIN_CMD_DRIVER_CAP_SET, VIRTIO_ADMIN_CMD_LIST_QUERY, VIRTIO_ADMIN_CMD_LIST_USE,
    VIRTIO_ADMIN_CMD_RESOURCE_OBJ_CREATE, VIRTIO_ADMIN_CMD_RESOURCE_OBJ_DESTROY,
    VIRTIO_ADMIN_CMD_RESOURCE_OBJ_MODIFY, VIRTIO_ADMIN_CMD_RESOURCE_OBJ_QUERY,
    VIRTIO_ADMIN_GROUP_TYPE_SELF, VIRTIO_NET_FF_ACTION_CAP, VIRTIO_NET_FF_ACTION_DROP,
    VIRTIO_NET_FF_ACTION_RX_VQ, VIRTIO_NET_FF_RESOURCE_CAP, VIRTIO_NET_FF_SELECTOR_CAP,
    VIRTIO_NET_RESOURCE_OBJ_FF_CLASSIFIER, VIRTIO_NET_RESOURCE_OBJ_FF_GROUP,
    VIRTIO_NET_RESOURCE_OBJ_FF_RULE,
};
pub use command::{
    CapData, Command, CommandBytes, ObjData, ObjHead, RawActions, RawKey, RawList, RawRule,
};
pub use error::WireErr;
pub use header::opcode_of;
pub use objects::put_object_data;
pub use read::read_command;
pub use reply::{Reply, ReplyBytes, put_reply, read_reply};
pub use write::put_command;
