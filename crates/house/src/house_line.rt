// One line of a test house.
ghost use Rattle.std.specs.Prelude.{◌≡◌};
ghost use Rattle.std.specs.Option.{option_map};
ghost use Rattle.input.specs.Lines.{content};
ghost use Rattle.house.specs.Lines.{area_in, asked, by_keyword, call_in, fault_in, meter_in, number_in, pick_in, said, statement};
ghost use Rattle.house.specs.Words.{words as words_of};

use crate::address::next_address;
use crate::field::read_all;
use crate::keyword::Keyword;
use crate::number::{Digit, decimal_byte, pair};
use crate::source::Source;
use crate::words::{Words, size_before};
use bench::row::Row;
use input::hex::read_pairs;
use input::line::{content_len, is_skipped};
use round::call::Call;

// What a line says.
#[derive(Drop)]
pub(crate) enum HouseLine {
    // nothing, or a comment: a kind of line and no `None`
    Skipped,
    // bytes of the area
    Area(Vec<u8>),
    // a meter
    Meter(Row),
    // fault codes
    Fault(Vec<u8>),
    // a layer's limit
    Retry(u8),
    // how many places a search has
    Places(u8),
    // a call on the master
    Call(Call),
}

const MOST_PLACES: u8 = 250;

#[tactic(auto, unfolding(crate::specs::Lines::area_in))]
fn read_area(source: Source) -> Option<HouseLine>
    ensures { option_map said result ≡ area_in source.entry.text.now }
{
    let Source { text, room } = source;
    let mut bytes = room.bytes;
    let _ = bytes.extend_from_slice(text);
    let size = read_pairs(bytes.as_mut_slice())?;
    if size == 0 {
        return None;
    }
    bytes.truncate(size);
    Some(HouseLine::Area(bytes))
}

#[tactic(auto, using(crate::proofs::Scanning::few_words), unfolding(crate::specs::Lines::fault_in))]
fn read_fault(source: Source) -> Option<HouseLine>
    ensures { option_map said result ≡ fault_in (words_of source.entry.text.now) }
{
    let Source { text, room } = source;
    let codes = read_all(Words { text }, room.bytes)?;
    if codes.is_empty() {
        return None;
    }
    Some(HouseLine::Fault(codes))
}

// The one number of a text.
#[tactic(auto, using(crate::proofs::Scanning::no_words), unfolding(crate::specs::Lines::number_in))]
fn read_number(text: &[u8], most: u8) -> Option<u8>
    ensures { result ≡ number_in most (words_of text.now) }
{
    let mut words = Words { text };
    let word = words.next()?;
    if words.next().is_some() {
        return None;
    }
    decimal_byte(word, most)
}

#[tactic(auto, using(crate::proofs::Scanning::behind_four), unfolding(crate::specs::Lines::meter_in))]
fn read_meter(source: Source) -> Option<HouseLine>
    ensures { option_map said result ≡ meter_in (words_of source.entry.text.now) }
{
    let Source { text, room } = source;
    let mut words = Words { text };
    let address = next_address(&mut words)?;
    let primary = words.next()?;
    if !Digit::Hexadecimal.spell(primary, 2) {
        return None;
    }
    let bodies = read_all(words, room.bodies)?;
    Some(HouseLine::Meter(Row {
        address,
        primary: pair(primary, 0),
        bodies,
    }))
}

// A call that has no words behind it.
#[tactic(auto, using(crate::proofs::Scanning::no_words), unfolding(crate::specs::Lines::call_in))]
fn read_call(mut words: Words, call: Call) -> Option<HouseLine>
    ensures { option_map said result ≡ call_in (asked call) (words_of words.entry.text.now) }
{
    words.next().is_none().then_some(HouseLine::Call(call))
}

#[tactic(auto, unfolding(crate::specs::Lines::pick_in))]
fn read_pick(text: &[u8]) -> Option<HouseLine>
    ensures { option_map said result ≡ pick_in (words_of text.now) }
{
    let mut words = Words { text };
    let address = next_address(&mut words)?;
    read_call(words, Call::Pick(address))
}

// Reads what follows a keyword.
fn read_values(keyword: Keyword, source: Source) -> Option<HouseLine>
    ensures { option_map said result ≡ by_keyword (Some keyword) source.entry.text.now }
{
    let text = source.text;
    // what follows a keyword differs in more than a constant, so that closures in a table would be no plainer
    match keyword {
        Keyword::Area => read_area(source),
        Keyword::Meter => read_meter(source),
        Keyword::Fault => read_fault(source),
        Keyword::Retry => read_number(text, u8::MAX).map(HouseLine::Retry),
        Keyword::Places => read_number(text, MOST_PLACES).map(HouseLine::Places),
        Keyword::Search => read_call(Words { text }, Call::Search),
        Keyword::Pick => read_pick(text),
        Keyword::Fetch => read_call(Words { text }, Call::Fetch),
        Keyword::Release => read_call(Words { text }, Call::Release),
    }
}

// Reads a line, given without its line feed.
#[tactic(auto, unfolding(crate::specs::Lines::statement))]
pub(crate) fn read_line(line: Source) -> Option<HouseLine>
    ensures { option_map said result ≡ statement (content line.entry.text.now) }
{
    let Source { text, room } = line;
    let text = &text[..content_len(text)];
    if is_skipped(text) {
        return Some(HouseLine::Skipped);
    }
    let (keyword, rest) = text.split_at(size_before(text, b' '));
    let values = Source { text: rest, room };
    read_values(Keyword::read(keyword)?, values)
}
