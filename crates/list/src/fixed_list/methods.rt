// Making a list, adding to it and looking at it.
ghost use Rattle.std.specs.Prelude.{◌≡◌, is_ok};
ghost use Rattle.list.specs.FixedLists.{all_places, used_of, entries_of, lender, put_entries, put_places, put_used, put_result};

use super::FixedList;
use crate::full::Full;

impl<'a, T: Copy> FixedList<'a, T> {
    // An empty list over these places.
    pub fn new(places: &'a mut [T]) -> FixedList<'a, T>
        ensures places { all_places result ≡ places.old }
        ensures used { used_of result ≡ 0 }
        ensures lender { lender result ≡ places.entry.ghost_name }
    {
        FixedList { places, used: 0 }
    }

    // The entries, in the order in which they came.
    pub fn entries(&self) -> &[T]
        ensures { result.now ≡ entries_of self.now }
    {
        &self.places[0..self.used]
    }

    // Empties the list. The places keep what they hold.
    pub fn clear(&mut self)
        ensures places { all_places self.new ≡ all_places self.old }
        ensures used { used_of self.new ≡ 0 }
        ensures lender { lender self.new ≡ lender self.old }
    {
        self.used = 0;
    }

    // Adds an entry at the end; where no place is left, the refusal changes nothing. By index, which is the count.
    pub fn push(&mut self, entry: T) -> Result<(), Full>
        ensures result { result ≡ put_result (all_places self.old) (used_of self.old) }
        ensures places { all_places self.new ≡ put_places (all_places self.old) (used_of self.old) entry }
        ensures used { used_of self.new ≡ put_used (all_places self.old) (used_of self.old) }
        ensures entries { entries_of self.new ≡ put_entries (entries_of self.old) entry (is_ok result) }
        ensures lender { lender self.new ≡ lender self.old }
    {
        let at = self.used;
        if at >= self.places.len() {
            return Err(Full);
        }
        self.places[at] = entry;
        self.used = at + 1;
        Ok(())
    }
}
