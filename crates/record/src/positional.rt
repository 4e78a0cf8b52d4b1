// Numbers by their digits.
ghost use Rattle.std.specs.Prelude.{◌≡◌, ℕ, ◌+◌, ◌*◌, ◌%◌, ◌^◌, ◌<◌, length, fold, reverse};
ghost use Rattle.record.specs.Numbers.{total};

// The number whose digits the bytes show, the lowest digit in the first byte, as far as 64 bits hold it.
pub(crate) fn positional<F: Fn(u8) -> u64>(bytes: &[u8], base: u64, digit: F) -> u64
    requires { F.IsAlwaysCallable digit }
    ensures { (f : ℕ → ℕ) → ((b d : ℕ) → F.post digit b d → d ≡ f b) → result ≡ total (λ i. base ^ i) f 0 bytes.now % 2 ^ 64 }
{
    bytes.iter().rev().fold(
        0,
        |n: u64, byte| n.wrapping_mul(base).wrapping_add(digit(*byte)),
    )
}
