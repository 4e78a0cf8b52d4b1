// Folding what was decoded into a running digest.
ghost use Rattle.std.specs.Prelude.{◌≡◌};
ghost use Rattle.items.specs.Views.{view};
ghost use Rattle.speed.specs.Digests.{item_fields, mixed, mixed_all, reading_fields, reply_fields, report_fields, value_fields};

use items::item::Item;
use link::fault::Report;
use record::reading::{Reading, Value};
use telegram::reply::Reply;

// One number more.
fn mix(digest: u64, number: u64) -> u64
    ensures { result ≡ mixed digest number }
{
    (digest ^ number).wrapping_mul(0x100_0000_01b3)
}

// Some numbers more, one after the other.
pub(crate) fn mix_all(digest: u64, numbers: &[u64]) -> u64
    ensures { result ≡ mixed_all digest numbers.now }
{
    numbers
        .iter()
        .fold(digest, |mixed, number| mix(mixed, *number))
}

// A fault by its number and place, 0 where it has none.
pub(crate) fn mix_report(digest: u64, report: Report) -> u64
    ensures { result ≡ mixed_all digest (report_fields report) }
{
    mix_all(
        digest,
        &[u64::from(report.number), report.place.unwrap_or(0) as u64],
    )
}

// A reply, apart from its body.
pub(crate) fn mix_reply(digest: u64, reply: &Reply) -> u64
    ensures { result ≡ mixed_all digest (reply_fields reply.now) }
{
    let address = mix_all(digest, &reply.address.bytes().map(u64::from));
    mix_all(
        address,
        &[
            u64::from(reply.access),
            u64::from(reply.status),
            u64::from(reply.signature),
        ],
    )
}

fn mix_value(digest: u64, value: Value) -> u64
    ensures { result ≡ mixed_all digest (value_fields value) }
{
    match value {
        Value::NoData => mix_all(digest, &[0]),
        Value::Integer(number) => mix_all(digest, &[1, number.cast_unsigned()]),
        Value::Real(pattern) => mix_all(digest, &[2, u64::from(pattern)]),
        Value::Text(text) => mix_all(digest, &[3, text.place as u64, text.len as u64]),
    }
}

// A reading with so many VIFEs.
fn mix_reading(digest: u64, reading: &Reading, vifes: usize) -> u64
    ensures { result ≡ mixed_all digest (reading_fields reading.now vifes) }
{
    let meaning = &reading.meaning;
    let head = mix_all(
        digest,
        &[
            1,
            reading.place as u64,
            reading.storage,
            u64::from(reading.tariff),
            u64::from(reading.subunit),
            reading.function as u64,
            u64::from(u8::from(meaning.quantity)),
            i64::from(meaning.power).cast_unsigned(),
            meaning.unit as u64,
            vifes as u64,
        ],
    );
    mix_value(head, reading.value)
}

// An item of the body.
pub(crate) fn mix_item(digest: u64, item: &Item) -> u64
    ensures { result ≡ mixed_all digest (item_fields (view item.now)) }
{
    match item {
        Item::Record { reading, vifes } | Item::Text { reading, vifes, .. } => {
            mix_reading(digest, reading, vifes.len())
        }
        Item::Manufacturer { place, bytes, more } => mix_all(
            digest,
            &[2, *place as u64, bytes.len() as u64, u64::from(*more)],
        ),
    }
}
