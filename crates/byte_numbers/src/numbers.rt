ghost use Rattle.std.specs.Prelude.{◌≡◌, ◌+◌, ◌≤◌, length};
ghost use Rattle.byte_numbers.specs.Numbers.{le16_at, le32_at, le64_at, be16_at, be32_at};

/// The 16-bit number whose first, lowest byte is at `place`.
#[tactic(auto, unfolding(crate::specs::Numbers::le16_at))]
pub fn le16_at(bytes: &[u8], place: usize) -> u16
    requires { place + 2 ≤ length bytes.now }
    ensures { result ≡ le16_at bytes.now place }
{
    u16::from_le_bytes([bytes[place], bytes[place + 1]])
}

/// The 32-bit number whose first, lowest byte is at `place`.
#[tactic(auto, unfolding(crate::specs::Numbers::le32_at))]
pub fn le32_at(bytes: &[u8], place: usize) -> u32
    requires { place + 4 ≤ length bytes.now }
    ensures { result ≡ le32_at bytes.now place }
{
    let field = &bytes[place..place + 4];
    u32::from_le_bytes([field[0], field[1], field[2], field[3]])
}

/// The 64-bit number whose first, lowest byte is at `place`.
#[tactic(auto, unfolding(crate::specs::Numbers::le64_at))]
pub fn le64_at(bytes: &[u8], place: usize) -> u64
    requires { place + 8 ≤ length bytes.now }
    ensures { result ≡ le64_at bytes.now place }
{
    let field = &bytes[place..place + 8];
    u64::from_le_bytes([
        field[0], field[1], field[2], field[3], field[4], field[5], field[6], field[7],
    ])
}

/// The 16-bit number whose first, highest byte is at `place`.
#[tactic(auto, unfolding(crate::specs::Numbers::be16_at))]
pub fn be16_at(bytes: &[u8], place: usize) -> u16
    requires { place + 2 ≤ length bytes.now }
    ensures { result ≡ be16_at bytes.now place }
{
    u16::from_be_bytes([bytes[place], bytes[place + 1]])
}

/// The 32-bit number whose first, highest byte is at `place`.
#[tactic(auto, unfolding(crate::specs::Numbers::be32_at))]
pub fn be32_at(bytes: &[u8], place: usize) -> u32
    requires { place + 4 ≤ length bytes.now }
    ensures { result ≡ be32_at bytes.now place }
{
    let field = &bytes[place..place + 4];
    u32::from_be_bytes([field[0], field[1], field[2], field[3]])
}
