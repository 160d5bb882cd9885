//! Tests of a server's use of sockets: addresses, time limits, the order of connections, limits,
//! drains, signals and failed allocations. The sockets are in memory, and the tests advance the
//! clock.
#![tactic(auto)]

#[cfg(test)]
mod crowd;
#[cfg(test)]
mod drains;
#[cfg(test)]
mod limits;
#[cfg(test)]
mod lost;
#[cfg(test)]
mod memory;
#[cfg(test)]
mod peers;
