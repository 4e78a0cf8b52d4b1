// The telegram buffer, in which requests are written and replies arrive.
ghost use Rattle.std.specs.Prelude.{◌≡◌, ◌+◌, ◌-◌, [], ◌++◌, length, min, take, drop};
ghost use Rattle.link.specs.Buffers.{filled};

// What fills a buffer and how many bytes that is are told in two clauses, so that each can be cited alone.

// As many bytes as the longest frame has.
pub type Buffer = [u8; 261];

// A new buffer, all 00.
#[tactic(auto, unfolding(crate::specs::Buffers::filled))]
pub fn new_buffer() -> Buffer
    ensures { result ≡ filled [] }
{
    [0; 261]
}

// Puts some bytes behind the first `at` of a buffer, as many as there is room for, and answers where they end.
pub fn append(buffer: &mut [u8], at: usize, bytes: &[u8]) -> usize
    ensures front { take result buffer.new ≡ take at buffer.old ++ take (length buffer.old - at) bytes.now }
    ensures rest { drop result buffer.new ≡ drop result buffer.old }
    ensures count { result ≡ min (length buffer.old) (at + length bytes.now) }
{
    let start = at.min(buffer.len());
    let count = bytes.len().min(buffer.len() - start);
    let end = start + count;
    buffer[start..end].copy_from_slice(&bytes[..count]);
    end
}

// Fills the buffer with some bytes, the first 261 where there are more, then 00, and answers how many it took.
pub fn fill(buffer: &mut Buffer, bytes: &[u8]) -> usize
    ensures buffer { buffer.new ≡ filled (take 261 bytes.now) }
    ensures count { result ≡ length (take 261 bytes.now) }
{
    *buffer = new_buffer();
    append(buffer, 0, bytes)
}
