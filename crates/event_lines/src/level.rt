//! The level of event lines.
ghost use Rattle.std.specs.Prelude.{◌≡◌, option_map};
ghost use Rattle.event_lines.specs.Levels.{level_of};

/// The level of event lines, by the value of `PERSOD_LOG`.
#[derive(Clone, Copy, Debug, PartialEq, Eq)]
pub enum Level {
    /// No lines are written.
    Off,
    /// All lines are written, except those of connections whose request was accepted.
    Usual,
    /// All lines are written.
    All,
}

/// Returns the level for `value`, the value of `PERSOD_LOG`, or `None` if it isn't set. An empty
/// value, `0` and `off` turn the lines off, `all` turns all of them on, and any other value the
/// usual ones.
pub fn level_of(value: Option<&[u8]>) -> Level
    ensures { result ≡ level_of (option_map (λ v. v.now) value.entry) }
{
    match value {
        None => Level::Off,
        Some(b"") => Level::Off,
        Some(b"0") => Level::Off,
        Some(b"off") => Level::Off,
        Some(b"all") => Level::All,
        Some(_) => Level::Usual,
    }
}
