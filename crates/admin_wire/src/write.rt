//! From a command to its bytes.

ghost use Rattle.std.specs.Prelude.{◌≡◌, ◌+◌, ◌≤◌, Ok, length};
ghost use Rattle.admin_wire.specs.Codes.{most_command_bytes};
ghost use Rattle.admin_wire.specs.Fields.{WritesFields, written};
ghost use Rattle.admin_wire.specs.LaidOut.{HasBytes, HasLayout};
ghost use Rattle.admin_wire.specs.Layouts.{command_bytes, data_fields};
ghost use Rattle.admin_wire.specs.Wire.{command_of};

use crate::capabilities::{put_cap, put_cap_head};
use crate::command::{Command, CommandBytes};
use crate::header::put_header;
use crate::objects::{put_bare_head, put_head, put_object};
use crate::opcode::Opcode;
use crate::put_field::put_64;

/// Appends what follows the header.
fn put_data(bytes: &mut CommandBytes, command: &Command)
    requires { length bytes.old.items + length (written (data_fields command.now)) ≤ most_command_bytes }
    ensures writes { WritesFields bytes.old.items (data_fields command.now) bytes.new.items }
    ensures layout { HasBytes command.now → HasLayout command.now }
{
    match command {
        Command::ListQuery | Command::CapIds => {}
        Command::ListUse(bitmap) => put_64(bytes, *bitmap),
        Command::CapGet(id) => put_cap_head(bytes, *id),
        Command::CapSet(cap) => put_cap(bytes, cap),
        Command::Create(head, object) | Command::Modify(head, object) => {
            put_head(bytes, head);
            put_object(bytes, object);
        }
        Command::Query(head) => put_head(bytes, head),
        Command::Destroy(head) => put_bare_head(bytes, head),
    }
}

/// The bytes of a command, which read as it: reserved bytes are 0, drop stands before queue, and nothing follows the
/// data that the command needs.
pub fn put_command(command: &Command) -> CommandBytes
    requires known { HasBytes command.now }
    requires fits { length (command_bytes command.now) ≤ most_command_bytes }
    ensures bytes { result.items ≡ command_bytes command.now }
    ensures read_back { command_of result.items ≡ Ok command.now }
{
    let mut bytes = CommandBytes::new();
    put_header(&mut bytes, Opcode::of_command(command));
    put_data(&mut bytes, command);
    bytes
}
