//! Times of capture.

ghost use Rattle.std.specs.Prelude.{◌≡◌, ◌<◌};
ghost use Rattle.tc_capture.specs.Time.{time_of};

/// A time after the first of January 1970, UTC.
#[derive(Clone, Copy, PartialEq, Eq, Debug)]
pub struct Time {
    /// Whole seconds.
    pub seconds: u64,
    /// Nanoseconds after the whole second, under 1,000,000,000.
    pub nanoseconds: u32,
}

/// The time at `ticks`, with `per_second` ticks a second.
pub fn time_of(ticks: u64, per_second: u64) -> Time
    requires { 0 < per_second }
    ensures { result ≡ time_of ticks per_second }
{
    let part = (ticks % per_second) as u128 * 1_000_000_000 / per_second as u128;
    Time {
        seconds: ticks / per_second,
        nanoseconds: part as u32,
    }
}
