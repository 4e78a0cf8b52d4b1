// The meters that a capture's bytes record.
ghost use Rattle.std.specs.List.{AllByRecursion};
ghost use Rattle.line.specs.Meters.{Stocked};
ghost use Rattle.capture.specs.Rows.{meters_of};

use crate::row::Row;

#[derive(Drop)]
pub(crate) struct Recording {
    pub(crate) bytes: Vec<u8>,
    pub(crate) rows: Vec<Row>,
    ghost stocked: { ∥ AllByRecursion Stocked (meters_of bytes.items rows.items) ∥₁ },
}
