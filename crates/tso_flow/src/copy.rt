//! Copies of checked clients.

ghost use Rattle.std.specs.Prelude.{◌≡◌, IfOk};

use crate::flow::Checked;
use std::alloc::{AllocError, Global};

impl Checked {
    /// The same checked client once more.
    ///
    /// Errors: where a growth was refused.
    pub fn copied(&self, alloc: Global) -> Result<Checked, AllocError>
        ensures { IfOk result (λ c. c.client ≡ self.now.client) }
    {
        let client = self.client.copied(alloc)?;
        Ok(Checked { client })
    }
}
