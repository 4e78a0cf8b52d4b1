// Memory for the meters of a capture.
ghost use Rattle.std.specs.Prelude.{◌≡◌, ◌≤◌, [], IfOk, vec_capacity};

use crate::rows::Rows;
use std::alloc::{AllocError, Global};

// Room for as many rows as a capture may have.
#[derive(Drop)]
pub struct Store {
    pub(crate) rows: Rows,
    ghost empty: { rows.list.items ≡ [] },
}

impl Store {
    // Gets the memory; refused only where there is none.
    pub fn new(heap: Global) -> Result<Store, AllocError>
        ensures { IfOk result (λ s. (s.rows.list.items ≡ []) × (250 ≤ vec_capacity s.rows.list)) }
    {
        let rows = Rows::new(heap)?;
        Ok(Store { rows })
    }
}
