// Sorted lists: numbers by rising number, each once.
#![tactic(auto)]

ghost use Rattle.std.specs.Prelude.{◌≡◌, true};
ghost use Rattle.sorted.specs.Lists.{rising};

mod apart;
mod fault;
pub mod laws;
mod list;
mod merge;
pub mod slices;
#[cfg(test)]
mod tests;

pub use fault::first_fault;
use std::alloc::AllocError;

// Numbers by rising number, each once.
#[derive(Drop)]
pub struct SortedList {
    items: Vec<u64>,
    ghost sorted: { rising items.items ≡ true },
}

// Why no list was made: the first place at fault, or want of memory.
#[derive(Clone, Copy, Debug, PartialEq, Eq)]
pub enum FromSliceError {
    Fault(usize),
    Memory,
}

impl From<AllocError> for FromSliceError {
    ghost use Rattle.sorted.specs.declared.FromSliceError.TheVariants.{Memory};

    ghost from_gives = { λ _ e. e ≡ Memory };

    fn from(_refused: AllocError) -> FromSliceError {
        FromSliceError::Memory
    }
}
