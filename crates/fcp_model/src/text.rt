ghost use Rattle.std.specs.Prelude.{◌≡◌, IfOk};

use crate::NoMemory;
use std::alloc::Global;
use std::marker::Model;

/// An owned text, which contracts see as its bytes.
#[derive(Debug, Drop)]
pub struct Text {
    text: String,
}

impl Model for Text {
    ghost use Rattle.std.specs.Prelude.{List, ℕ};
    ghost use Rattle.std.specs.String.{string_bytes};

    ghost Value = { List ℕ };

    ghost view = { λ t. string_bytes t.text };
}

impl Text {
    /// A copy of a text.
    pub fn make(alloc: Global, text: &str) -> Result<Text, NoMemory>
        ensures { IfOk result (λ t. t ≡ text.now) }
    {
        match String::from_str(alloc, text) {
            Ok(text) => Ok(Text { text }),
            Err(_) => Err(NoMemory),
        }
    }

    /// The text.
    pub fn as_str(&self) -> &str
        ensures { result.now ≡ self.now }
    {
        self.text.as_str()
    }
}
