//! Connections over sockets on 127.0.0.1, with time limits: the connections that a server accepts,
//! and those that a driver opens, one for each message.
#![tactic(auto)]

mod arrived;
mod asking;
mod clock;
mod drain;
mod front;
mod listening;
mod peer;
mod pending;
mod port;
mod slots;
mod timed;
mod watch;

pub use listening::Loopback;
pub use peer::{PeerReader, PeerWriter};
pub use port::Port;
pub use watch::{Epoll, Watch, Watches};
