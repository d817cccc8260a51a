//! Items of get groups.
ghost use Rattle.std.specs.Prelude.{◌≡◌};
ghost use Rattle.css_tags.specs.Plans.{bytes_of};
ghost use Rattle.css_tags.specs.Groups.{IsItem, planned_get};

use crate::block::Block;
use css_base::Buffer;

/// What a get group does with a block.
#[derive(Drop)]
pub enum Item {
    /// The block gets the buffer's bytes, in rows of this width in bytes.
    From(Buffer, Block, u32),
    /// The block gets zeros.
    Fresh(Block),
    /// The block stays as it is.
    Kept(Block),
}

impl Item {
    /// How many bytes are in its pieces.
    pub(crate) fn bytes(&self) -> u64
        requires { IsItem self.now }
        ensures { result ≡ bytes_of (planned_get self.now) }
    {
        match self {
            Item::From(_, block, _) => u64::from(block.length()),
            Item::Fresh(_) | Item::Kept(_) => 0,
        }
    }
}
