//! The opcodes of administration commands, as a bitmap: bit n is opcode n.

ghost use Rattle.std.specs.Prelude.{◌≡◌, ◌==◌, not, bit_and};
ghost use Rattle.std.specs.Int.{w64, to_le_bytes};
ghost use Rattle.cap_table.specs.States.{is_opcode_in, all_opcodes, opcodes_at};
ghost use Rattle.cap_table.specs.Answers.{opcodes_used};

use crate::start::Start;

// 0, 1 and 7 to 13
const ALL: u64 = 0x3F83;

// the list query and the list use command
const FIRST: u64 = 0x3;

impl Start {
    /// The opcodes in use at the start.
    pub fn opcodes(self) -> u64
        ensures { result ≡ opcodes_at self }
    {
        match self {
            Start::Ready => ALL,
            Start::Reset => FIRST,
        }
    }
}

/// Whether the device has the opcode: 0, 1 and 7 to 13.
pub fn has_opcode(opcode: u16) -> bool
    ensures { result ≡ is_opcode_in all_opcodes opcode }
{
    is_opcode_in(ALL, opcode)
}

/// The bitmap of the device's opcodes, in bytes.
pub fn opcode_bytes() -> [u8; 8]
    ensures { result ≡ to_le_bytes w64 all_opcodes }
{
    ALL.to_le_bytes()
}

/// Whether a bitmap has the bit of an opcode that the device hasn't.
pub fn has_other_opcode(bitmap: u64) -> bool
    ensures { result ≡ not (bit_and bitmap all_opcodes == bitmap) }
{
    bitmap & ALL != bitmap
}

/// The opcodes that are in use after a list use with this bitmap: its own, and the two that always are.
pub fn opcodes_used(bitmap: u64) -> u64
    ensures { result ≡ opcodes_used bitmap }
{
    bitmap | FIRST
}

/// Whether a bitmap of opcodes has the opcode.
#[tactic(auto, using(crate::proofs::OpcodeLemmas::no_bit_above))]
pub fn is_opcode_in(opcodes: u64, opcode: u16) -> bool
    ensures { result ≡ is_opcode_in opcodes opcode }
{
    opcode < 64 && (opcodes >> opcode) & 1 == 1
}
