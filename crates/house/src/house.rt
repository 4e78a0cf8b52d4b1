// A test house: what its lines add up to.
use bench::row::Row;
use round::call::Call;

// What a bench is made from, the limits of the layers over it from the first to the last, how many places each
// search has for meters, where a line says so, and the calls in their order.
#[derive(Drop)]
pub struct House {
    pub rows: Vec<Row>,
    pub area: Vec<u8>,
    pub codes: Vec<u8>,
    pub limits: Vec<u8>,
    pub places: Option<u8>,
    pub calls: Vec<Call>,
}

// A line that cannot be read. The house is handed back.
#[derive(Drop)]
pub struct Unreadable {
    pub house: House,
}
