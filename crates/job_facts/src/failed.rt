//! A failed commit or release.
use crate::store::StoreFault;
use std::alloc::AllocError;

/// A commit or a release that failed. `E` is the type of the reason.
#[derive(Clone, Copy, Debug, PartialEq, Eq, Drop)]
pub struct Failed<E> {
    /// The reason.
    pub fault: E,
    /// `true` if nothing of the call can have reached the device: an open after a crash finds only
    /// what it could find before the call. `false` if it may also find what the call stores.
    pub undone: bool,
}

// The `?` operator is for the steps before the commit itself.
impl<E> From<E> for Failed<E> {
    ghost use Rattle.std.specs.Prelude.{◌≡◌, true};

    ghost from_gives = { λ fault failed. failed ≡ record { fault = fault; undone = true } };

    fn from(fault: E) -> Failed<E> {
        Failed {
            fault,
            undone: true,
        }
    }
}

impl From<AllocError> for Failed<StoreFault> {
    ghost use Rattle.std.specs.Prelude.{◌≡◌, true};
    ghost use Rattle.job_facts.specs.declared.store.StoreFault.TheVariants.{Memory};

    ghost from_gives = { λ _ failed. failed ≡ record { fault = Memory; undone = true } };

    fn from(_error: AllocError) -> Failed<StoreFault> {
        Failed::from(StoreFault::Memory)
    }
}
