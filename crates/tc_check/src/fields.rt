//! The fields of headers.

ghost use Rattle.std.specs.Prelude.{◌≡◌, ◌+◌, ◌≤◌, length};
ghost use Rattle.tc_check.specs.Messages.{number_at};

// The number of two bytes at an offset.
pub(crate) fn u16_at(bytes: &[u8], offset: usize) -> u16
    requires { offset + 2 ≤ length bytes.now }
    ensures { result ≡ number_at 2 offset bytes.now }
{
    let field = bytes.split_at(offset).1.split_at(2).0;
    u16::from_le_bytes([field[0], field[1]])
}

// The number of four bytes at an offset.
pub(crate) fn u32_at(bytes: &[u8], offset: usize) -> u32
    requires { offset + 4 ≤ length bytes.now }
    ensures { result ≡ number_at 4 offset bytes.now }
{
    let field = bytes.split_at(offset).1.split_at(4).0;
    u32::from_le_bytes([field[0], field[1], field[2], field[3]])
}
