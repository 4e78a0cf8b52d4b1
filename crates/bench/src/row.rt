// The rows of a bench's table.
ghost use Rattle.std.specs.Prelude.{◌≡◌, ◌≤◌, true, length};
ghost use Rattle.link.specs.Buffers.{filled};
ghost use Rattle.bench.specs.Meters.{body_bytes, telegram_with};
ghost use Rattle.bench.specs.Rows.{body_fits, each, row_fits};

use link::buffer::Buffer;
use telegram::address::Address;
use telegram::reply::Reply;

// Where a body starts in the area, and how many bytes it has.
pub type Offset = u16;

// The body of a telegram: a part of the area.
#[derive(Clone, Copy)]
pub struct Body {
    pub start: Offset,
    pub length: Offset,
}

// A meter: its address, the byte A of its telegrams, and a body for each of them.
#[derive(Drop)]
pub struct Row {
    pub address: Address,
    pub primary: u8,
    pub bodies: Vec<Body>,
}

const MOST_BODY: usize = 240;

const LEAST_BODIES: usize = 1;

const MOST_BODIES: usize = 16;

impl Body {
    // Whether the body is short enough, and lies inside an area of this size.
    fn fits(&self, size: usize) -> bool
        ensures { result ≡ body_fits size self.now }
    {
        let start = self.start as usize;
        let length = self.length as usize;
        length <= MOST_BODY && start + length <= size
    }

    // The body's bytes in the area.
    pub(crate) fn bytes<'a>(&self, area: &'a [u8]) -> &'a [u8]
        requires { body_fits (length area.now) self.now ≡ true }
        ensures bytes { result.now ≡ body_bytes area.now self.now }
        ensures short { length result.now ≤ 240 }
    {
        let start = self.start as usize;
        &area[start..start + self.length as usize]
    }
}

// Whether each body fits an area of this size.
fn each_fits(bodies: &[Body], size: usize) -> bool
    ensures { result ≡ each (body_fits size) bodies.now }
{
    bodies.iter().all(|body| body.fits(size))
}

impl Row {
    // Whether the row has 1 to 16 bodies that fit an area of this size.
    pub(crate) fn fits(&self, size: usize) -> bool
        ensures { result ≡ row_fits size self.now }
    {
        (LEAST_BODIES..=MOST_BODIES).contains(&self.bodies.len()) && each_fits(&self.bodies, size)
    }

    // Fills the buffer with the row's telegram that has this body, then 00, and answers the count of its bytes.
    #[tactic(auto, unfolding(crate::specs::Meters::telegram_with))]
    pub(crate) fn write(&self, body: &[u8], reply: &mut Buffer) -> usize
        requires { length body.now ≤ 240 }
        ensures buffer { reply.new ≡ filled (telegram_with self.now body.now) }
        ensures count { result ≡ length (telegram_with self.now body.now) }
    {
        let telegram = Reply {
            primary: self.primary,
            address: self.address,
            access: 0,
            status: 0,
            signature: 0,
        };
        telegram.write(body, reply).unwrap()
    }
}
