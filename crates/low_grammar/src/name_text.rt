//! The bytes of a name, as a thing of a list of names.
ghost use Rattle.std.specs.Prelude.{◌≡◌};

use module_grammar::Bytes;
use name_lists::HasName;
use std::marker::Model;

/// The bytes of a name. Contracts see them as their list.
#[derive(Drop)]
pub struct NameText<'a> {
    bytes: Bytes<'a>,
}

impl<'a> Model for NameText<'a> {
    ghost use Rattle.std.specs.Prelude.{ℕ, List};

    ghost Value = { List ℕ };

    ghost view = { λ n. n.bytes };
}

impl<'a> HasName for NameText<'a> {
    ghost text = { λ n. n };

    fn name(&self) -> &[u8] {
        self.bytes.as_slice()
    }
}

impl<'a> NameText<'a> {
    pub fn new(bytes: Bytes<'a>) -> NameText<'a>
        ensures { result ≡ bytes.entry }
    {
        NameText { bytes }
    }
}
