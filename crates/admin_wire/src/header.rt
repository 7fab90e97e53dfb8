//! The header of a command.

ghost use Rattle.std.specs.Prelude.{◌≡◌, ◌+◌, ◌≤◌, length, OnOk};
ghost use Rattle.admin_wire.specs.Codes.{header_size, most_command_bytes};
ghost use Rattle.admin_wire.specs.Fields.{WritesFields};
ghost use Rattle.admin_wire.specs.Headers.{opcode_of, command_header};
ghost use Rattle.admin_wire.specs.Layouts.{header_fields};

use crate::codes::{HEADER_LEN, SELF_MEMBER, VIRTIO_ADMIN_GROUP_TYPE_SELF};
use crate::command::CommandBytes;
use crate::error::WireErr;
use crate::opcode::Opcode;
use crate::put_field::{put_16, put_64, put_reserved};
use byte_numbers::{le16_at, le64_at};

/// The opcode of a command, if the bytes have its whole header: 24 bytes.
#[tactic(auto, unfolding(crate::specs::Headers::opcode_of))]
pub fn opcode_of(bytes: &[u8]) -> Option<u16>
    ensures { result ≡ opcode_of bytes.now }
{
    if bytes.len() < HEADER_LEN {
        return None;
    }
    Some(le16_at(bytes, 0))
}

/// The opcode that a header gives, or the header's first fault.
#[tactic(auto, unfolding(crate::specs::Headers::command_header, crate::specs::Headers::opcode_of))]
pub(crate) fn command_header(bytes: &[u8]) -> Result<Opcode, WireErr>
    ensures value { result ≡ command_header bytes.now }
    ensures whole { OnOk result (header_size ≤ length bytes.now) }
{
    let code = opcode_of(bytes).ok_or(WireErr::ShortHeader)?;
    let opcode = Opcode::of_code(code).ok_or(WireErr::Opcode(code))?;
    let group = le16_at(bytes, 2);
    if group != VIRTIO_ADMIN_GROUP_TYPE_SELF {
        return Err(WireErr::Group(group));
    }
    let member = le64_at(bytes, 16);
    if member != SELF_MEMBER {
        return Err(WireErr::Member(member));
    }
    Ok(opcode)
}

/// Appends the header of a command with this opcode.
pub(crate) fn put_header(bytes: &mut CommandBytes, opcode: Opcode)
    requires { length bytes.old.items + header_size ≤ most_command_bytes }
    ensures { WritesFields bytes.old.items (header_fields opcode) bytes.new.items }
{
    put_16(bytes, opcode.code());
    put_16(bytes, VIRTIO_ADMIN_GROUP_TYPE_SELF);
    put_reserved::<12>(bytes);
    put_64(bytes, SELF_MEMBER);
}
