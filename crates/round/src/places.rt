// Places for the entries of searches.
ghost use Rattle.std.specs.Prelude.{◌≤◌, length};

use search::entry::Entry;

// One search's entries come after the other's: the first `used` places hold them. No heap: the places are handed in.
#[derive(Drop)]
pub(crate) struct Places<'a> {
    pub(crate) all: &'a mut [Entry],
    pub(crate) used: usize,
    ghost within: { used ≤ length all.now },
}
