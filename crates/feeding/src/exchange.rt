//! The exchange of one message.
use std::alloc::AllocError;

/// A way to send a message to a server and to receive the response.
pub trait Exchange {
    ghost use Rattle.std.specs.Prelude.{◌≡◌, ◌∷◌, ◌++◌, [], IfOk, List, Option, option_map};
    ghost use Rattle.feeding.specs.Tries.{Try, try_of};

    /// The exchanged messages, the oldest first, if they are known. They are known for an exchange
    /// in memory, and unknown for a socket.
    ghost log: { Self → Option (List Try) };

    /// Sends `message` on a new connection, and returns all bytes that come back on it, or `None`
    /// if it couldn't be sent or nothing came back.
    ///
    /// # Errors
    ///
    /// Fails only if an allocation fails.
    fn exchange(&mut self, message: &[u8]) -> Result<Option<Vec<u8>>, AllocError>
        ensures { IfOk result (λ came. log self.new
            ≡ option_map (λ l. l ++ try_of message.now came ∷ []) (log self.old)) };
}
