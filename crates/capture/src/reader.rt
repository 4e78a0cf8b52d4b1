// A reader over recorded telegrams, and the guard that narrows it to one of them.
ghost use Rattle.std.specs.Prelude.{◌≡◌, ◌+◌, ◌≤◌, length, MatchResult};
ghost use Rattle.telegram.specs.Addresses.{address_bytes};
ghost use Rattle.capture.specs.Cutting.{Stuck, Took, telegram_from};

use telegram::address::Address;
use telegram::fault::ReplyFault;
use telegram::reply::Reply;

// The bytes from `at` to `end` are to be read, by place, since the guard below narrows the end and puts it back.
// Between two telegrams the end is that of all bytes.
#[derive(Drop)]
pub(crate) struct Reader<'a> {
    pub(crate) bytes: &'a [u8],
    pub(crate) at: usize,
    pub(crate) end: usize,
    ghost within: { at ≤ end },
    ghost whole: { end ≡ length bytes.now },
}

// A reader's end, which stands at the end of one telegram until this is dropped, and then at the end of all bytes.
struct Narrowed<'r, 'a> {
    bytes: &'a [u8],
    end: &'r mut usize,
}

impl<'r, 'a> Narrowed<'r, 'a> {
    // Narrows the end to that of the telegram which starts at a place.
    fn new(bytes: &'a [u8], end: &'r mut usize, start: usize) -> Narrowed<'r, 'a>
        requires { start ≤ length bytes.now }
        ensures bytes { result.bytes.now ≡ bytes.now }
        ensures end { result.end.now ≡ start + length (telegram_from bytes.now start) }
        ensures lender { result.end.ghost_name ≡ end.entry.ghost_name }
    {
        *end = telegram_end(bytes, start);
        Narrowed { bytes, end }
    }
}

impl Drop for Narrowed<'_, '_> {
    fn drop(self)
        ensures { self.exit.1.0.now ≡ length self.entry.bytes.now }
    {
        *self.end = self.bytes.len();
        let Narrowed { bytes: _, end: _ } = self;
    }
}

// Where the telegram that starts at a place ends: 6 past its second byte's value, or with the bytes if that is nearer
// or if there is no second byte.
#[tactic(auto, using(crate::proofs::Cuts::length_telegram))]
fn telegram_end(bytes: &[u8], at: usize) -> usize
    requires { at ≤ length bytes.now }
    ensures end { result ≡ at + length (telegram_from bytes.now at) }
    ensures few { result ≤ at + 261 }
{
    bytes.get(at + 1).map_or(bytes.len(), |size| {
        bytes.len().min(at + 6 + *size as usize)
    })
}

// The telegram that starts at a place.
#[tactic(auto, using(crate::proofs::Cuts::end_within, crate::proofs::Cuts::part_is))]
pub(crate) fn telegram_at(bytes: &[u8], at: usize) -> &[u8]
    requires { at ≤ length bytes.now }
    ensures bytes { result.now ≡ telegram_from bytes.now at }
    ensures few { length result.now ≤ 261 }
{
    &bytes[at..telegram_end(bytes, at)]
}

impl<'a> Reader<'a> {
    pub(crate) fn new(bytes: &'a [u8]) -> Reader<'a>
        ensures bytes { result.bytes.now ≡ bytes.now }
        ensures at { result.at ≡ 0 }
    {
        Reader {
            bytes,
            at: 0,
            end: bytes.len(),
        }
    }

    // Reads the telegram at the reader's place, answers the address that it carries, and moves past it.
    // At a fault the reader stays. Either way its end stands at the end of the bytes again.
    pub(crate) fn next(&mut self) -> Result<Address, ReplyFault>
        ensures bytes { self.new.bytes.now ≡ self.old.bytes.now }
        ensures taken { MatchResult result (λ a. Took self.old.bytes.now self.old.at (address_bytes a) self.new.at) (λ e. Stuck self.old.bytes.now self.old.at e self.new.at) }
    {
        let start = self.at;
        let guard = Narrowed::new(self.bytes, &mut self.end, start);
        let end = *guard.end;
        let reply = Reply::read(&self.bytes[start..end])?;
        self.at = end;
        Ok(reply.address)
    }
}
