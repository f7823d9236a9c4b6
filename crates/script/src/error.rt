// Why a text could not be read.
ghost use Rattle.std.specs.Prelude.{◌≡◌};
ghost use Rattle.script.specs.declared.error.ReadError.TheVariants as errors;

use std::alloc::{AllocError, AllocFailed};
use words::unreadable::Unreadable;

// What is wrong with the text, or that memory ran out.
#[derive(Clone, Copy)]
pub enum ReadError<E> {
    Text(E),
    Memory(AllocError),
}

impl From<Unreadable> for ReadError<Unreadable> {
    ghost from_gives = { λ why error. error ≡ errors.Text why };

    fn from(why: Unreadable) -> ReadError<Unreadable> {
        ReadError::Text(why)
    }
}

impl<E: Drop> From<AllocError> for ReadError<E> {
    ghost from_gives = { λ memory error. error ≡ errors.Memory memory };

    fn from(memory: AllocError) -> ReadError<E> {
        ReadError::Memory(memory)
    }
}

impl<T: Drop, E: Drop> From<AllocFailed<T>> for ReadError<E> {
    ghost from_gives = { λ _ error. error ≡ errors.Memory (record {}) };

    fn from(failed: AllocFailed<T>) -> ReadError<E> {
        ReadError::Memory(failed.into())
    }
}
