// Which meters are meant, as far as that is known.

// None of them, a single one, or more than one.
#[derive(Clone, Copy)]
pub enum Matches<T> {
    Nobody,
    One(T),
    Several,
}
