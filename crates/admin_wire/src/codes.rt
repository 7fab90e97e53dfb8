//! The numbers that a command's fields hold, under the names of the Virtio 1.4 draft and of
//! `linux/virtio_net_ff.h`, and how many bytes each part of a layout takes.

/// The opcode that asks which opcodes the device has.
pub const VIRTIO_ADMIN_CMD_LIST_QUERY: u16 = 0x00;

/// The opcode that says which opcodes the driver is to use.
pub const VIRTIO_ADMIN_CMD_LIST_USE: u16 = 0x01;

/// The opcode that asks which capabilities the device has.
pub const VIRTIO_ADMIN_CMD_CAP_ID_LIST_QUERY: u16 = 0x07;

/// The opcode that asks for a capability of the device.
pub const VIRTIO_ADMIN_CMD_DEVICE_CAP_GET: u16 = 0x08;

/// The opcode that sets a capability of the driver.
pub const VIRTIO_ADMIN_CMD_DRIVER_CAP_SET: u16 = 0x09;

/// The opcode that creates a resource object.
pub const VIRTIO_ADMIN_CMD_RESOURCE_OBJ_CREATE: u16 = 0x0a;

/// The opcode that replaces the data of a resource object.
pub const VIRTIO_ADMIN_CMD_RESOURCE_OBJ_MODIFY: u16 = 0x0b;

/// The opcode that asks for the data of a resource object.
pub const VIRTIO_ADMIN_CMD_RESOURCE_OBJ_QUERY: u16 = 0x0c;

/// The opcode that destroys a resource object.
pub const VIRTIO_ADMIN_CMD_RESOURCE_OBJ_DESTROY: u16 = 0x0d;

/// The group type of a device that is its own and only member.
pub const VIRTIO_ADMIN_GROUP_TYPE_SELF: u16 = 0;

/// The object type of a flow filter group.
pub const VIRTIO_NET_RESOURCE_OBJ_FF_GROUP: u16 = 0x0200;

/// The object type of a flow filter classifier.
pub const VIRTIO_NET_RESOURCE_OBJ_FF_CLASSIFIER: u16 = 0x0201;

/// The object type of a flow filter rule.
pub const VIRTIO_NET_RESOURCE_OBJ_FF_RULE: u16 = 0x0202;

/// The id of the capability that limits how many objects there are.
pub const VIRTIO_NET_FF_RESOURCE_CAP: u16 = 0x0800;

/// The id of the capability that lists selectors.
pub const VIRTIO_NET_FF_SELECTOR_CAP: u16 = 0x0801;

/// The id of the capability that lists actions.
pub const VIRTIO_NET_FF_ACTION_CAP: u16 = 0x0802;

/// The action byte of a rule that drops.
pub const VIRTIO_NET_FF_ACTION_DROP: u8 = 1;

/// The action byte of a rule that delivers to a receive queue.
pub const VIRTIO_NET_FF_ACTION_RX_VQ: u8 = 2;

/// The member id of a device that is its own and only member.
pub(crate) const SELF_MEMBER: u64 = 0;

/// Bytes of a command's header.
pub(crate) const HEADER_LEN: usize = 24;

/// Bytes of a bitmap of opcodes.
pub(crate) const BITMAP_LEN: usize = 8;

/// Bytes of a capability's id and of the reserved bytes behind it.
pub(crate) const CAP_HEAD_LEN: usize = 8;

/// Bytes of a set of limits, without the reserved bytes behind it.
pub(crate) const LIMITS_LEN: usize = 18;

/// Bytes of a resource object's head.
pub(crate) const BARE_HEAD_LEN: usize = 8;

/// Bytes of a resource object's head and of the flags behind it.
pub(crate) const HEAD_LEN: usize = 16;

/// Bytes of a group's data.
pub(crate) const GROUP_LEN: usize = 2;

/// Bytes of a list of selectors or actions before its first entry.
pub(crate) const LIST_HEAD_LEN: usize = 8;

/// Bytes of an entry of a list of selectors before its mask.
pub(crate) const ENTRY_HEAD_LEN: usize = 8;

/// Bytes of a rule's data before its key.
pub(crate) const RULE_HEAD_LEN: usize = 16;

/// Bytes of a reply before its result.
pub(crate) const REPLY_HEAD_LEN: usize = 8;
