// A list over handed-in places, filled from the first. It holds readings and found meters.
ghost use Rattle.std.specs.Prelude.{◌≤◌, length};

mod methods;

// No heap: the places are the caller's. The first `used` of them hold the entries, in the order in which they came;
// the others are never touched.
#[derive(Drop)]
pub struct FixedList<'a, T> {
    places: &'a mut [T],
    used: usize,
    ghost within: { used ≤ length places.now },
}
