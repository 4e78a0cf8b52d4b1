// One probe of a beginning.
ghost use Rattle.std.specs.Prelude.{◌≡◌};
ghost use Rattle.search.specs.Beginnings.{digits_of};
ghost use Rattle.search.specs.Entries.{verdict_of};
ghost use Rattle.master.specs.Probes.{Probed};

use line::line::Line;
use line::sending::send;
use link::buffer::new_buffer;
use search::beginning::Beginning;
use telegram::address::Address;
use telegram::matches::Matches;
use telegram::reply::Reply;
use telegram::request::Request;

// Selects the beginning, and after any reply fetches with bit 1.
pub(crate) fn probe<L: Line>(line: &mut L, beginning: &Beginning) -> Matches<Address>
    ensures probed { Probed (L.means line.old) (digits_of beginning.now) (verdict_of result) (L.means line.new) }
    ensures layers { L.tries line.new ≡ L.tries line.old }
{
    let mut buffer = new_buffer();
    let selection = Request::Selection(beginning.pattern());
    if send(line, &selection, &mut buffer) == 0 {
        return Matches::Nobody;
    }
    let count = send(line, &Request::Fetch { bit: true }, &mut buffer);
    match Reply::read(&buffer[0..count]) {
        Ok(reply) => Matches::One(reply.address),
        Err(_) => Matches::Several,
    }
}
