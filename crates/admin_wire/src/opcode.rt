//! What a command asks for, by its opcode.

ghost use Rattle.std.specs.Prelude.{◌≡◌};
ghost use Rattle.admin_wire.specs.Layouts.{opcode_for};
ghost use Rattle.admin_wire.specs.Opcodes.{code_of, opcode_with};

use crate::codes::{
    VIRTIO_ADMIN_CMD_CAP_ID_LIST_QUERY, VIRTIO_ADMIN_CMD_DEVICE_CAP_GET,
    VIRTIO_ADMIN_CMD_DRIVER_CAP_SET, VIRTIO_ADMIN_CMD_LIST_QUERY, VIRTIO_ADMIN_CMD_LIST_USE,
    VIRTIO_ADMIN_CMD_RESOURCE_OBJ_CREATE, VIRTIO_ADMIN_CMD_RESOURCE_OBJ_DESTROY,
    VIRTIO_ADMIN_CMD_RESOURCE_OBJ_MODIFY, VIRTIO_ADMIN_CMD_RESOURCE_OBJ_QUERY,
};
use crate::command::Command;

/// The opcodes that are read, each as the command that has it.
#[derive(Clone, Copy, Debug, PartialEq, Eq)]
pub(crate) enum Opcode {
    ListQuery,
    ListUse,
    CapIds,
    CapGet,
    CapSet,
    Create,
    Modify,
    Query,
    Destroy,
}

impl Opcode {
    /// The number in the header.
    pub(crate) fn code(self) -> u16
        ensures { result ≡ code_of self }
    {
        match self {
            Opcode::ListQuery => VIRTIO_ADMIN_CMD_LIST_QUERY,
            Opcode::ListUse => VIRTIO_ADMIN_CMD_LIST_USE,
            Opcode::CapIds => VIRTIO_ADMIN_CMD_CAP_ID_LIST_QUERY,
            Opcode::CapGet => VIRTIO_ADMIN_CMD_DEVICE_CAP_GET,
            Opcode::CapSet => VIRTIO_ADMIN_CMD_DRIVER_CAP_SET,
            Opcode::Create => VIRTIO_ADMIN_CMD_RESOURCE_OBJ_CREATE,
            Opcode::Modify => VIRTIO_ADMIN_CMD_RESOURCE_OBJ_MODIFY,
            Opcode::Query => VIRTIO_ADMIN_CMD_RESOURCE_OBJ_QUERY,
            Opcode::Destroy => VIRTIO_ADMIN_CMD_RESOURCE_OBJ_DESTROY,
        }
    }

    /// The opcode with this number, if it is one of the nine.
    pub(crate) fn of_code(code: u16) -> Option<Opcode>
        ensures { result ≡ opcode_with code }
    {
        match code {
            VIRTIO_ADMIN_CMD_LIST_QUERY => Some(Opcode::ListQuery),
            VIRTIO_ADMIN_CMD_LIST_USE => Some(Opcode::ListUse),
            VIRTIO_ADMIN_CMD_CAP_ID_LIST_QUERY => Some(Opcode::CapIds),
            VIRTIO_ADMIN_CMD_DEVICE_CAP_GET => Some(Opcode::CapGet),
            VIRTIO_ADMIN_CMD_DRIVER_CAP_SET => Some(Opcode::CapSet),
            VIRTIO_ADMIN_CMD_RESOURCE_OBJ_CREATE => Some(Opcode::Create),
            VIRTIO_ADMIN_CMD_RESOURCE_OBJ_MODIFY => Some(Opcode::Modify),
            VIRTIO_ADMIN_CMD_RESOURCE_OBJ_QUERY => Some(Opcode::Query),
            VIRTIO_ADMIN_CMD_RESOURCE_OBJ_DESTROY => Some(Opcode::Destroy),
            _ => None,
        }
    }

    /// The opcode of a command.
    pub(crate) fn of_command(command: &Command) -> Opcode
        ensures { result ≡ opcode_for command.now }
    {
        match command {
            Command::ListQuery => Opcode::ListQuery,
            Command::ListUse(_) => Opcode::ListUse,
            Command::CapIds => Opcode::CapIds,
            Command::CapGet(_) => Opcode::CapGet,
            Command::CapSet(_) => Opcode::CapSet,
            Command::Create(..) => Opcode::Create,
            Command::Modify(..) => Opcode::Modify,
            Command::Query(_) => Opcode::Query,
            Command::Destroy(_) => Opcode::Destroy,
        }
    }
}
