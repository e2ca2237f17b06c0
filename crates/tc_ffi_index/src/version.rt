//! `vtc_version`.

ghost use Rattle.std.specs.Prelude.{◌≡◌};

/// The version of the library: major * 65536 + minor * 256 + patch.
#[unsafe(no_mangle)]
pub extern "C" fn vtc_version() -> u32
    ensures { result ≡ 0x00_03_00 }
{
    0x00_03_00
}
