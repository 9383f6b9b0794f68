//! A text that was read, of which only contracts speak.
ghost use Rattle.std.specs.Prelude.{◌≡◌, ◌++◌, ℕ, List, []};
ghost use Rattle.std.specs.Borrow.{ftrue};
ghost use Rattle.sct_lines.specs.LineLaws.{with_last_feed};

use std::marker::Model;

// A text that was read. It takes no memory: its bytes are in contracts alone.
#[derive(Drop)]
pub(crate) struct TextRead {
    pub ghost bytes: { List ℕ },
}

impl Model for TextRead {
    ghost also_owns = { λ _. ftrue };
}

impl TextRead {
    // The empty text.
    pub(crate) fn none() -> TextRead
        ensures { result.bytes ≡ [] }
    {
        TextRead {}
    }

    // The text, with its last line ended, and then a block.
    pub(crate) fn then(&self, block: &[u8]) -> TextRead
        ensures { result.bytes ≡ with_last_feed self.now.bytes ++ block.now }
    {
        let _ = block;
        TextRead {}
    }
}
