//! Tests that no example file can express: failing readers and writers, event lines, and the
//! socket of a machine.
#![tactic(auto)]

#[cfg(test)]
mod again;
#[cfg(test)]
mod batches;
#[cfg(test)]
mod exchanges;
#[cfg(test)]
mod failing_readers;
#[cfg(test)]
mod failing_writers;
#[cfg(test)]
mod fake;
#[cfg(test)]
mod feeds;
#[cfg(test)]
mod ports;
#[cfg(test)]
mod readers;
#[cfg(test)]
mod servers;
#[cfg(test)]
mod writers;
