// Which meters of a table a pattern fits.
ghost use Rattle.std.specs.Prelude.{◌≡◌, false, Some, MatchOption};
ghost use Rattle.std.specs.List.{slice_get};
ghost use Rattle.telegram.specs.Patterns.{fits};
ghost use Rattle.line.specs.Buses.{fitting};
ghost use Rattle.bus.specs.Choices.{Tells, one_more};

use crate::table::Table;
use telegram::matches::Matches;
use telegram::pattern::Pattern;

// The rows chosen, with one row more.
fn with_row(chosen: Matches<usize>, row: usize) -> Matches<usize>
    ensures { result ≡ one_more chosen row }
{
    match chosen {
        Matches::Nobody => Matches::One(row),
        _ => Matches::Several,
    }
}

// Whether the pattern fits the meter in a row.
fn is_fit<T: Table>(table: &T, pattern: &Pattern, row: usize) -> bool
    ensures { MatchOption (slice_get (T.meters table.now) row) (result ≡ false) (λ m. result ≡ fits pattern.now.bytes m.address) }
{
    table
        .address(row)
        .is_some_and(|address| pattern.fits(&address))
}

// The meters that the pattern fits.
fn choose<T: Table>(table: &T, pattern: &Pattern) -> Matches<usize>
    ensures { Tells (T.meters table.now) (fitting (Some pattern.now) (T.meters table.now)) result }
{
    let mut chosen = Matches::Nobody;
    // by number: a table is asked for its rows one by one
    for row in 0..table.count() {
        if is_fit(table, pattern, row) {
            chosen = with_row(chosen, row);
        }
    }
    chosen
}

// The meters that are selected.
pub(crate) fn chosen<T: Table>(table: &T, selection: &Option<Pattern>) -> Matches<usize>
    ensures { Tells (T.meters table.now) (fitting selection.now (T.meters table.now)) result }
{
    match selection {
        None => Matches::Nobody,
        Some(pattern) => choose(table, pattern),
    }
}
