//! Options of an interface.

ghost use Rattle.std.specs.Prelude.{◌≡◌};
ghost use Rattle.tc_capture.specs.Options.{units_of, units_in, shift_in, seconds_later, later};

use crate::entries::{Entries, entry_in};
use crate::order::Order;
use crate::time::Time;

// The codes of the options if_tsresol and if_tsoffset.
const RESOLUTION: u16 = 9;

const SHIFT: u16 = 14;

// The number of time units in a second.
pub(crate) fn units_in(order: Order, bytes: &[u8]) -> Option<u64>
    ensures { result ≡ units_in order bytes.now }
{
    match entry_in(Entries::Options(order), RESOLUTION, bytes) {
        None => Some(1_000_000),
        Some([resolution]) => units_of(*resolution),
        Some(_) => None,
    }
}

// The number of time units in a second, from the value of if_tsresol.
fn units_of(resolution: u8) -> Option<u64>
    ensures { result ≡ units_of resolution }
{
    if resolution < 128 {
        10u64.checked_pow(resolution as u32)
    } else {
        2u64.checked_pow((resolution - 128) as u32)
    }
}

// The seconds to add to each time, in two's complement.
pub(crate) fn shift_in(order: Order, bytes: &[u8]) -> Option<u64>
    ensures { result ≡ shift_in order bytes.now }
{
    match entry_in(Entries::Options(order), SHIFT, bytes) {
        None => Some(0),
        Some(value) if value.len() == 8 => Some(order.u64_at(value, 0)),
        Some(_) => None,
    }
}

// A time shifted by seconds in two's complement; `None` if it is before 1970 or overflows.
pub(crate) fn later(shift: u64, time: Time) -> Option<Time>
    ensures { result ≡ later shift time }
{
    match seconds_later(shift, time.seconds) {
        Some(seconds) => Some(Time {
            seconds,
            nanoseconds: time.nanoseconds,
        }),
        None => None,
    }
}

fn seconds_later(shift: u64, seconds: u64) -> Option<u64>
    ensures { result ≡ seconds_later shift seconds }
{
    if shift < 0x8000_0000_0000_0000 {
        return seconds.checked_add(shift);
    }
    let earlier = u64::MAX - shift + 1;
    seconds.checked_sub(earlier)
}
