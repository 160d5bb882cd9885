//! Connections in memory, which keep the input and the response of each connection.
ghost use Rattle.std.specs.Prelude.{◌≡◌, []};
ghost use Rattle.server.specs.Memory.{bytes_left, queue, replies_of, texts};

use crate::connections::{Connections, NextFault};
use crate::served::Served;
use http_messages::ByteSource;
use std::alloc::Global;
use std::mem;

/// A reader that returns bytes from memory in pieces.
#[derive(Drop)]
pub struct MemoryReader {
    bytes: Vec<u8>,
    at: usize,
    most: usize,
}

impl MemoryReader {
    /// Creates a reader of `bytes` that returns at most `most` bytes per call, but at least one.
    pub fn new(bytes: Vec<u8>, most: usize) -> MemoryReader
        ensures { bytes_left result ≡ bytes.items }
    {
        MemoryReader { bytes, at: 0, most }
    }
}

impl ByteSource for MemoryReader {
    ghost use Rattle.std.specs.Prelude.{Some, false};
    ghost use Rattle.server.specs.Memory.{bytes_left};

    ghost brings = { λ r. Some (bytes_left r) };

    ghost cut = { λ _. false };

    fn bring(&mut self, buf: &mut [u8]) -> usize {
        let mut count = 0;
        while count < buf.len() && self.at < self.bytes.len() && (count == 0 || count < self.most) {
            buf[count] = self.bytes[self.at];
            self.at += 1;
            count += 1;
        }
        count
    }

    fn is_cut(&self) -> bool {
        false
    }
}

/// The input, the response and the outcome of a connection.
#[derive(Drop)]
pub struct Replied {
    /// All bytes of the connection, including those after its message.
    pub input: Vec<u8>,
    /// The response, or a prefix of it.
    pub written: Vec<u8>,
    /// The outcome of the connection.
    pub served: Served,
}

/// Connections in memory, to be served in order. `next` reserves the memory in which `back` keeps
/// the result, so `back` allocates nothing.
#[derive(Drop)]
pub struct MemoryConnections {
    alloc: Global,
    most: usize,
    inputs: Vec<Vec<u8>>,
    replies: Vec<Replied>,
}

impl MemoryConnections {
    /// Creates a connection for each element of `inputs`. Its reader returns at most `most` bytes
    /// per call, but at least one.
    pub fn new(alloc: Global, inputs: Vec<Vec<u8>>, most: usize) -> MemoryConnections
        ensures done { (queue result).done ≡ [] }
        ensures coming { (queue result).coming ≡ texts inputs.items }
    {
        MemoryConnections {
            alloc,
            most,
            inputs,
            replies: Vec::new(alloc),
        }
    }

    /// Returns the connections that were taken back, in order.
    pub fn replies(&self) -> &[Replied]
        ensures { result.now ≡ replies_of self.now }
    {
        &self.replies
    }
}

impl Connections for MemoryConnections {
    ghost use Rattle.std.specs.Prelude.{Some};
    ghost use Rattle.server.specs.Memory.{queue, IsOut, Refuses};

    type In = MemoryReader;

    type Out = Vec<u8>;

    ghost queue = { λ c. Some (queue c) };

    ghost awaits = { IsOut };

    ghost refuses = { Refuses };

    fn next(&mut self) -> Result<(MemoryReader, Vec<u8>), NextFault> {
        let place = self.replies.len();
        if place >= self.inputs.len() {
            return Err(NextFault::Device);
        }
        self.replies.reserve(1)?;
        let bytes = self.inputs[place].to_vec(self.alloc)?;
        let reader = MemoryReader::new(bytes, self.most);
        Ok((reader, Vec::new(self.alloc)))
    }

    fn back(&mut self, _incoming: MemoryReader, writer: Vec<u8>, served: Served) {
        let place = self.replies.len();
        let input = mem::replace(&mut self.inputs[place], Vec::new(self.alloc));
        let reply = Replied {
            input,
            written: writer,
            served,
        };
        self.replies.push(reply).unwrap();
    }
}
