//! Numbers in guest memory, little endian.
ghost use Rattle.std.specs.Prelude.{◌≡◌, ◌+◌, ◌≤◌, length};
ghost use Rattle.byte_numbers.specs.Numbers.{le16_at, le32_at};
ghost use Rattle.guest_mem.specs.Memory.{bytes_at, with_bytes, ChangesOnly, IsInRange};

use guest_mem::GuestMem;

/// So many bytes at an address.
pub(crate) fn bytes_at<const N: usize>(mem: &GuestMem, addr: u64) -> [u8; N]
    requires { addr + N ≤ length mem.now }
    ensures { result ≡ bytes_at mem.now addr N }
{
    let mut bytes = [0; N];
    mem.read(addr, &mut bytes).unwrap();
    bytes
}

/// The number of 16 bits at an address.
#[tactic(auto, unfolding(byte_numbers::specs::Numbers::le16_at))]
pub(crate) fn le16_at(mem: &GuestMem, addr: u64) -> u16
    requires { addr + 2 ≤ length mem.now }
    ensures { result ≡ le16_at mem.now addr }
{
    u16::from_le_bytes(bytes_at(mem, addr))
}

/// The number of 32 bits at an address.
#[tactic(auto, unfolding(byte_numbers::specs::Numbers::le32_at))]
pub(crate) fn le32_at(mem: &GuestMem, addr: u64) -> u32
    requires { addr + 4 ≤ length mem.now }
    ensures { result ≡ le32_at mem.now addr }
{
    u32::from_le_bytes(bytes_at(mem, addr))
}

/// Writes bytes at an address.
pub(crate) fn put_bytes(mem: &mut GuestMem, addr: u64, bytes: &[u8])
    requires { addr + length bytes.now ≤ length mem.old }
    ensures value { mem.new ≡ with_bytes mem.old addr bytes.now }
    ensures others { ChangesOnly mem.old mem.new (IsInRange addr (length bytes.now)) }
{
    mem.write(addr, bytes).unwrap();
}
