// The walk over the beginnings of numbers.
ghost use Rattle.std.specs.Prelude.{◌≡◌, ℕ, List, ◌++◌, map, length, MatchResult};
ghost use Rattle.std.specs.Option.{option_to_list};
ghost use Rattle.list.specs.FixedLists.{all_places, entries_of, lender, used_of};
ghost use Rattle.search.specs.declared.entry.Entry.{Entry as Listed};
ghost use Rattle.search.specs.Entries.{entry_of};
ghost use Rattle.master.specs.Faults.{is_full, summary_of};
ghost use Rattle.master.specs.Lists.{Filled};
ghost use Rattle.master.specs.Searches.{Walked};

use crate::fault::{SearchFault, Summary};
use crate::probe::probe;
use line::line::Line;
use list::fixed_list::FixedList;
use list::full::Full;
use search::beginning::Beginning;
use search::entry::Entry;

// Lists an entry, where there is one.
fn add(list: &mut FixedList<Entry>, entry: Option<Entry>) -> Result<(), Full>
    ensures cases { MatchResult result (λ _. entries_of list.new ≡ entries_of list.old ++ option_to_list entry) (λ _. (length (option_to_list entry) ≡ 1) × (entries_of list.new ≡ entries_of list.old) × (used_of list.new ≡ length (all_places list.new))) }
    ensures filled { (places : List Listed) → Filled places list.old → Filled places list.new }
    ensures lender { lender list.new ≡ lender list.old }
{
    match entry {
        Some(entry) => list.push(entry),
        None => Ok(()),
    }
}

// What a search with this list and so many selections reports.
fn summary(list: &FixedList<Entry>, selections: u32) -> Summary
    ensures { result ≡ record { entries = length (entries_of list.now); selections = selections } }
{
    Summary {
        entries: list.entries().len(),
        selections,
    }
}

// Probes the beginnings, first the empty one, and lists what is found.
pub(crate) fn walk<L: Line>(
    line: &mut L,
    list: &mut FixedList<Entry>,
) -> Result<Summary, SearchFault>
    ensures walked { Walked 8 (L.means line.old) (length (all_places list.old)) (map entry_of (entries_of list.new)) (summary_of result).selections (is_full result) (L.means line.new) }
    ensures entries { (summary_of result).entries ≡ length (entries_of list.new) }
    ensures filled { Filled (all_places list.old) list.new }
    ensures lender { lender list.new ≡ lender list.old }
    ensures layers { L.tries line.new ≡ L.tries line.old }
{
    list.clear();
    let mut at = Beginning::first();
    let mut selections: u32 = 0;
    'walk: loop {
        let verdict = probe(line, &at);
        selections += 1;
        let Ok(()) = add(list, at.entry(verdict)) else {
            let summary = summary(list, selections);
            break Err(SearchFault { summary });
        };
        let Some(next) = at.after(verdict) else {
            break Ok(summary(list, selections));
        };
        at = next;
    }
}
