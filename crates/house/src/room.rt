// Memory for the values of a line.
ghost use Rattle.std.specs.Prelude.{◌≡◌, vec_len};

use bench::row::Body;

// Two vectors that hold nothing yet: one for bytes or codes, one for bodies.
#[derive(Drop)]
pub(crate) struct Room {
    pub(crate) bytes: Vec<u8>,
    pub(crate) bodies: Vec<Body>,
    ghost no_bytes: { vec_len bytes ≡ 0 },
    ghost no_bodies: { vec_len bodies ≡ 0 },
}
