// Why a reading ends without an answer.
ghost use Rattle.std.specs.Prelude.{◌≡◌};
ghost use Rattle.words.specs.declared.stop.Failed.TheVariants as failed;

use rights::Refusal;
use std::alloc::{AllocError, AllocFailed};

#[derive(Drop)]
pub enum Failed<E> {
    // want of memory, which is no fault of what is read
    Memory,
    Because(E),
}

impl<E> From<AllocError> for Failed<E> {
    ghost from_gives = { λ _ r. r ≡ failed.Memory };

    fn from(_e: AllocError) -> Failed<E> {
        Failed::Memory
    }
}

impl<T: Drop, E> From<AllocFailed<T>> for Failed<E> {
    ghost from_gives = { λ _ r. r ≡ failed.Memory };

    fn from(_e: AllocFailed<T>) -> Failed<E> {
        Failed::Memory
    }
}

// Refused, at this offset of the line.
#[derive(Drop)]
pub struct At {
    pub refusal: Refusal,
    pub place: usize,
}

// Why a line is not read.
pub type Stop = Failed<At>;

// Why what a line says is not done.
pub type Denial = Failed<Refusal>;

impl From<Refusal> for Denial {
    ghost from_gives = { λ e r. r ≡ failed.Because e };

    fn from(e: Refusal) -> Denial {
        Failed::Because(e)
    }
}
