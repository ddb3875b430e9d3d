// Up to sixty-four plain numbers, by value.
// Kept: an array with a count beside it, since the reader has no heap.
ghost use Rattle.std.specs.Prelude.{◌≡◌, ◌≤◌, length};

mod push;
mod views;

#[derive(Clone, Copy)]
pub struct Numbers {
    at: [u64; 64],
    len: usize,
    ghost sized: { length at ≡ 64 },
    ghost few: { len ≤ 64 },
}

// What differs: numbers gone from the list here, and numbers come.
#[derive(Clone, Copy)]
pub struct Difference {
    pub(crate) gone: Numbers,
    pub(crate) come: Numbers,
}
