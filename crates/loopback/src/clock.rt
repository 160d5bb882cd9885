//! The time limits of connections, and the pauses before a message is sent again.
ghost use Rattle.std.specs.Prelude.{◌≡◌, ◌<◌, MatchResult};
ghost use Rattle.std.specs.Duration.{as_nanos};
ghost use Rattle.std.specs.IoError.{error_kind};
ghost use Rattle.std.specs.Time.{instant_nanos};
ghost use Rattle.loopback.specs.Waits.{is_late, pause_after, wait_at};

use std::io::{self, ErrorKind};
use std::time::{Duration, Instant};

/// The longest pause before a message is sent again, in milliseconds.
const MOST_PAUSE: u64 = 16_000;

/// The side of a connection that waits for the other side.
#[derive(Clone, Copy, Debug, PartialEq, Eq)]
pub(crate) enum Side {
    /// A server, which has other connections to serve after this one.
    Server,
    /// A driver. It waits while the server serves other connections, one at a time, and each of
    /// their peers may take 10 s to read its response.
    Machine,
}

impl Side {
    ghost use Rattle.std.specs.Prelude.{◌≡◌};
    ghost use Rattle.std.specs.Duration.{as_nanos};
    ghost use Rattle.loopback.specs.Waits.{most_time, most_wait};

    /// Returns the time limit of a single read or write.
    pub(crate) fn most_wait(self) -> Duration
        ensures { as_nanos result ≡ most_wait self }
    {
        match self {
            Side::Server => Duration::from_secs(5),
            Side::Machine => Duration::from_secs(60),
        }
    }

    /// Returns the time limit of a whole message or a whole response. For a driver, it is the limit
    /// of both together, including the time to connect.
    pub(crate) fn most_time(self) -> Duration
        ensures { as_nanos result ≡ most_time self }
    {
        match self {
            Side::Server => Duration::from_secs(10),
            Side::Machine => Duration::from_secs(60),
        }
    }
}

/// Returns how long a read or a write that starts at `now` may wait. It is part of a message or a
/// response that was begun at `begun`.
///
/// # Errors
///
/// Returns an error of the kind `TimedOut` if the time for the whole message or response is over.
pub(crate) fn wait_at(side: Side, begun: Instant, now: Instant) -> io::Result<Duration>
    ensures { let left = wait_at side (instant_nanos begun) (instant_nanos now) in
        MatchResult result
        (λ wait. (0 < left) × (as_nanos wait ≡ left))
        (λ error. (left ≡ 0) × (error_kind error ≡ ErrorKind.TimedOut)) }
{
    let wait = side
        .most_time()
        .saturating_sub(now.duration_since(begun))
        .min(side.most_wait());
    if wait.is_zero() {
        return Err(ErrorKind::TimedOut.into());
    }
    Ok(wait)
}

/// Returns `true` if the server has waited too long at `now`: for a whole message since `begun`, or
/// for its next byte since `last`.
pub(crate) fn is_late(begun: Instant, last: Instant, now: Instant) -> bool
    ensures { result ≡ is_late (instant_nanos begun) (instant_nanos last) (instant_nanos now) }
{
    now.duration_since(begun) >= Side::Server.most_time()
        || now.duration_since(last) >= Side::Server.most_wait()
}

/// Returns the pause before a message is sent again. It was already sent again `sent` times.
pub(crate) fn pause_after(sent: u32) -> Duration
    ensures { as_nanos result ≡ pause_after sent }
{
    let millis = 4u64.saturating_pow(sent).saturating_mul(10);
    Duration::from_millis(millis.min(MOST_PAUSE))
}
