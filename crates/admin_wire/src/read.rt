//! From bytes to the command that they lay out.

ghost use Rattle.std.specs.Prelude.{◌≡◌, ◌↔◌, Some, IfOk};
ghost use Rattle.admin_wire.specs.declared.command.Command.{Command};
ghost use Rattle.admin_wire.specs.declared.error.WireErr.{WireErr};
ghost use Rattle.admin_wire.specs.Headers.{opcode_of};
ghost use Rattle.admin_wire.specs.LaidOut.{HasLayout, IsLaidOut};
ghost use Rattle.admin_wire.specs.Layouts.{opcode_for};
ghost use Rattle.admin_wire.specs.Needs.{IsFault};
ghost use Rattle.admin_wire.specs.Opcodes.{code_of};
ghost use Rattle.admin_wire.specs.Wire.{list_use_of, cap_get_of, query_of, destroy_of, data_of, command_of};

use crate::capabilities::cap_of;
use crate::codes::{BARE_HEAD_LEN, BITMAP_LEN, CAP_HEAD_LEN, HEAD_LEN, HEADER_LEN};
use crate::command::Command;
use crate::error::WireErr;
use crate::header::command_header;
use crate::objects::{bare_head_of, head_and_object, head_of};
use crate::opcode::Opcode;
use byte_numbers::{le16_at, le64_at};

/// Which opcodes are to be used.
#[tactic(auto, unfolding(crate::specs::Wire::list_use_of))]
fn list_use_of(bytes: &[u8]) -> Result<Command, WireErr>
    ensures { result ≡ list_use_of bytes.now }
{
    if bytes.len() < BITMAP_LEN {
        return Err(WireErr::ShortData);
    }
    Ok(Command::ListUse(le64_at(bytes, 0)))
}

/// Which capability is asked for.
#[tactic(auto, unfolding(crate::specs::Wire::cap_get_of))]
fn cap_get_of(bytes: &[u8]) -> Result<Command, WireErr>
    ensures { result ≡ cap_get_of bytes.now }
{
    if bytes.len() < CAP_HEAD_LEN {
        return Err(WireErr::ShortData);
    }
    Ok(Command::CapGet(le16_at(bytes, 0)))
}

/// Which object is asked for.
#[tactic(auto, unfolding(crate::specs::Wire::query_of))]
fn query_of(bytes: &[u8]) -> Result<Command, WireErr>
    ensures { result ≡ query_of bytes.now }
{
    if bytes.len() < HEAD_LEN {
        return Err(WireErr::ShortData);
    }
    Ok(Command::Query(head_of(bytes)))
}

/// Which object is to be destroyed.
#[tactic(auto, unfolding(crate::specs::Wire::destroy_of))]
fn destroy_of(bytes: &[u8]) -> Result<Command, WireErr>
    ensures { result ≡ destroy_of bytes.now }
{
    if bytes.len() < BARE_HEAD_LEN {
        return Err(WireErr::ShortData);
    }
    Ok(Command::Destroy(bare_head_of(bytes)))
}

/// The command of an opcode, from the bytes behind the header.
#[tactic(auto, unfolding(crate::specs::Wire::data_of))]
fn data_of(opcode: Opcode, bytes: &[u8]) -> Result<Command, WireErr>
    ensures { result ≡ data_of opcode bytes.now }
{
    match opcode {
        Opcode::ListQuery => Ok(Command::ListQuery),
        Opcode::ListUse => list_use_of(bytes),
        Opcode::CapIds => Ok(Command::CapIds),
        Opcode::CapGet => cap_get_of(bytes),
        Opcode::CapSet => Ok(Command::CapSet(cap_of(bytes)?)),
        Opcode::Create => {
            let (head, object) = head_and_object(bytes)?;
            Ok(Command::Create(head, object))
        }
        Opcode::Modify => {
            let (head, object) = head_and_object(bytes)?;
            Ok(Command::Modify(head, object))
        }
        Opcode::Query => query_of(bytes),
        Opcode::Destroy => destroy_of(bytes),
    }
}

/// The command behind a header that is sound.
#[tactic(auto, unfolding(crate::specs::Wire::command_of))]
fn command_of(bytes: &[u8]) -> Result<Command, WireErr>
    ensures { result ≡ command_of bytes.now }
{
    let opcode = command_header(bytes)?;
    data_of(opcode, &bytes[HEADER_LEN..])
}

/// The command that the bytes lay out.
///
/// # Errors
///
/// The first fault of the bytes, in the order of `WireErr`.
pub fn read_command(bytes: &[u8]) -> Result<Command, WireErr>
    ensures exact { result ≡ command_of bytes.now }

    // It is a command exactly where that command is laid out, whatever stands in reserved bytes and behind it.
    ensures laid_out { (command : Command) → HasLayout command → (result ≡ Ok command) ↔ IsLaidOut bytes.now command }
    ensures opcode { IfOk result (λ command. opcode_of bytes.now ≡ Some (code_of (opcode_for command))) }
    ensures refused { (fault : WireErr) → (result ≡ Err fault) ↔ IsFault bytes.now fault }
{
    command_of(bytes)
}
