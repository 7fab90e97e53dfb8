//! Writing a command field by field.

ghost use Rattle.std.specs.Prelude.{◌+◌, ◌≤◌, [], ◌∷◌, length};
ghost use Rattle.std.specs.Int.{w8, w16, w32, w64};
ghost use Rattle.admin_wire.specs.Codes.{most_command_bytes};
ghost use Rattle.admin_wire.specs.Fields.{WritesFields, number, reserved, raw};

use crate::command::CommandBytes;

/// Appends a number of 8 bits.
pub(crate) fn put_8(bytes: &mut CommandBytes, n: u8)
    requires { length bytes.old.items + 1 ≤ most_command_bytes }
    ensures { WritesFields bytes.old.items (number w8 n ∷ []) bytes.new.items }
{
    bytes.push(n);
}

/// Appends a number of 16 bits.
pub(crate) fn put_16(bytes: &mut CommandBytes, n: u16)
    requires { length bytes.old.items + 2 ≤ most_command_bytes }
    ensures { WritesFields bytes.old.items (number w16 n ∷ []) bytes.new.items }
{
    bytes.try_extend_from_slice(&n.to_le_bytes()).unwrap();
}

/// Appends a number of 32 bits.
pub(crate) fn put_32(bytes: &mut CommandBytes, n: u32)
    requires { length bytes.old.items + 4 ≤ most_command_bytes }
    ensures { WritesFields bytes.old.items (number w32 n ∷ []) bytes.new.items }
{
    bytes.try_extend_from_slice(&n.to_le_bytes()).unwrap();
}

/// Appends a number of 64 bits.
pub(crate) fn put_64(bytes: &mut CommandBytes, n: u64)
    requires { length bytes.old.items + 8 ≤ most_command_bytes }
    ensures { WritesFields bytes.old.items (number w64 n ∷ []) bytes.new.items }
{
    bytes.try_extend_from_slice(&n.to_le_bytes()).unwrap();
}

/// Appends so many reserved bytes.
pub(crate) fn put_reserved<const N: usize>(bytes: &mut CommandBytes)
    requires { length bytes.old.items + N ≤ most_command_bytes }
    ensures { WritesFields bytes.old.items (reserved N ∷ []) bytes.new.items }
{
    bytes.try_extend_from_slice(&[0; N]).unwrap();
}

/// Appends bytes that are given.
pub(crate) fn put_raw(bytes: &mut CommandBytes, given: &[u8])
    requires { length bytes.old.items + length given.now ≤ most_command_bytes }
    ensures { WritesFields bytes.old.items (raw given.now ∷ []) bytes.new.items }
{
    bytes.try_extend_from_slice(given).unwrap();
}
