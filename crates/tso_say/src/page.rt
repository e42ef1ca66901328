//! Text that is put together line by line.

ghost use Rattle.std.specs.Prelude.{◌≡◌, ◌++◌, [], string_bytes, IfOk, OnOk};

use std::alloc::{AllocError, Global};

/// Text that grows.
#[derive(Drop)]
pub struct Page {
    pub bytes: Vec<u8>,
}

impl Page {
    /// An empty one.
    pub fn new(alloc: Global) -> Page
        ensures { result.bytes.items ≡ [] }
    {
        Page {
            bytes: Vec::new(alloc),
        }
    }

    /// Adds these bytes.
    ///
    /// Errors: where a growth was refused.
    pub fn put(&mut self, bytes: &[u8]) -> Result<(), AllocError>
        ensures { OnOk result (self.new.bytes.items ≡ self.old.bytes.items ++ bytes.now) }
    {
        self.bytes.extend_from_slice(bytes)?;
        Ok(())
    }

    /// Adds this text.
    ///
    /// Errors: where a growth was refused.
    pub fn say(&mut self, text: &str) -> Result<(), AllocError>
        ensures { OnOk result (self.new.bytes.items ≡ self.old.bytes.items ++ text.now) }
    {
        self.put(text.as_bytes())
    }

    /// Adds this text, where it could be made.
    ///
    /// Errors: the text's, and where a growth was refused.
    pub fn say_made(&mut self, text: Result<String, AllocError>) -> Result<(), AllocError>
        ensures { OnOk result (IfOk text (λ made. self.new.bytes.items ≡ self.old.bytes.items ++ string_bytes made)) }
    {
        self.say(text?.as_str())
    }
}
