// Beginnings of numbers.
ghost use Rattle.std.specs.Prelude.{ℕ, ◌<◌, ◌≤◌, slice_index};

pub mod methods;

// The first digits of a number, highest first: `len` of the eight. An array, since a beginning is copied digits and all
// and a vector of fixed capacity is not.
#[derive(Clone, Copy)]
pub struct Beginning {
    digits: [u8; 8],
    len: usize,
    ghost short: { len ≤ 8 },
    ghost decimal: { (k : ℕ) → slice_index digits k < 10 },
}
