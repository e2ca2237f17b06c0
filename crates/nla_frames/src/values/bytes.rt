//! The bytes of a number, as `le_bytes` and `be_bytes` define them. A record is written as one array of such bytes.

ghost use Rattle.std.specs.Prelude.{◌≡◌};
ghost use Rattle.std.specs.Int.{w32, cast_unsigned};
ghost use Rattle.nla_frames.specs.Value.{le_bytes, be_bytes};

/// The two bytes of a number, little-endian.
pub fn u16_bytes(value: u16) -> [u8; 2]
    ensures { result ≡ le_bytes 2 value }
{
    u16::to_le_bytes(value)
}

/// The four bytes of a number, little-endian.
pub fn u32_bytes(value: u32) -> [u8; 4]
    ensures { result ≡ le_bytes 4 value }
{
    u32::to_le_bytes(value)
}

/// The eight bytes of a number, little-endian.
pub fn u64_bytes(value: u64) -> [u8; 8]
    ensures { result ≡ le_bytes 8 value }
{
    u64::to_le_bytes(value)
}

/// The two bytes of a number, big-endian.
pub fn u16_be_bytes(value: u16) -> [u8; 2]
    ensures { result ≡ be_bytes 2 value }
{
    u16::to_be_bytes(value)
}

/// The four bytes of a number, big-endian.
pub fn u32_be_bytes(value: u32) -> [u8; 4]
    ensures { result ≡ be_bytes 4 value }
{
    u32::to_be_bytes(value)
}

/// The four bytes of a signed number, little-endian.
pub fn i32_bytes(value: i32) -> [u8; 4]
    ensures { result ≡ le_bytes 4 (cast_unsigned w32 value) }
{
    i32::to_le_bytes(value)
}
