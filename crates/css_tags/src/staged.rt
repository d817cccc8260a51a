//! Blocks whose transfers are complete.
ghost use Rattle.std.specs.Prelude.{◌≡◌, ◌<◌, Some, true, [], length, map, slice_get, IfOk, IfErr};
ghost use Rattle.css_tags.specs.Groups.{left, plan_of};
ghost use Rattle.css_tags.specs.Staged.{staged};

use crate::block::Block;
use crate::group::Group;
use css_base::{Buffer, Bytes, NoMemory};
use std::alloc::Global;
use std::marker::Model;

/// The blocks of a group that was finished, which `Channel::collect` alone makes: the blocks in order of the items, and of a
/// put group also the bytes that each block had when the group was made.
#[derive(Drop)]
pub struct Staged {
    put: bool,
    blocks: Vec<Block>,
    copies: Vec<Bytes>,
}

impl Model for Staged {
    ghost use Rattle.css_tags.specs.Staged.{Store};

    ghost Value = { Store };

    ghost view = { λ s. record { put = s.put; blocks = s.blocks.items; copies = s.copies.items } };
}

impl Staged {
    /// What a group leaves of which no piece is left.
    pub(crate) fn of(group: Group) -> Staged
        requires { left group ≡ [] }
        ensures { result ≡ staged (plan_of group) }
    {
        group.whole();
        let put = group.is_put();
        let (blocks, copies) = group.into_parts();
        Staged {
            put,
            blocks,
            copies,
        }
    }

    /// Gives the blocks, in order of the items. Takes no memory.
    pub fn into_blocks(self) -> Vec<Block>
        ensures { result.items ≡ self.blocks }
    {
        let Staged {
            put: _,
            blocks,
            copies: _,
        } = self;
        blocks
    }

    /// Lends the bytes of an item's block.
    pub fn bytes(&self, item: usize) -> &[u8]
        requires { item < length self.now.blocks }
        ensures { slice_get (map (λ b. b.bytes) self.now.blocks) item ≡ Some result.now }
    {
        self.blocks[item].as_slice()
    }

    /// Makes buffers of the bytes that the blocks of a put group had when it was made, and gives the blocks, in order of the
    /// items. Gives the blocks alone where there is no memory.
    pub fn into_buffers(self, alloc: Global) -> Result<(Vec<Buffer>, Vec<Block>), Vec<Block>>
        requires { self.put ≡ true }
        ensures buffers { IfOk result (λ r. r.0.items ≡ self.copies) }
        ensures blocks { IfOk result (λ r. r.1.items ≡ self.blocks) }
        ensures back { IfErr result (λ b. b.items ≡ self.blocks) }
    {
        let Staged {
            put: _,
            blocks,
            copies,
        } = self;
        match buffers_of(alloc, copies) {
            Ok(buffers) => Ok((buffers, blocks)),
            Err(_) => Err(blocks),
        }
    }
}

impl Staged {
    ghost use Rattle.std.specs.Prelude.{◌≡◌, ◌<◌, Some, length, map, slice_get};
    ghost use Rattle.std.specs.Borrow.{sem};
    ghost use Rattle.css_tags.specs.LendsStaged.{LendsItem};

    /// Lends the bytes of an item's block to a writer. The other blocks stay, and so do the buffers' bytes.
    pub fn bytes_mut(&mut self, item: usize) -> &mut [u8]
        requires { item < length self.old.blocks }
        ensures* writes_back { sem 𝓛 (LendsItem self.entry item result) }
        ensures value { slice_get (map (λ b. b.bytes) self.old.blocks) item ≡ Some result.now }
    {
        self.blocks[item].bytes_mut()
    }
}

/// Buffers of these bytes.
fn buffers_of(alloc: Global, copies: Vec<Bytes>) -> Result<Vec<Buffer>, NoMemory>
    ensures { IfOk result (λ v. v.items ≡ copies.items) }
{
    let mut buffers = Vec::with_capacity(alloc, copies.len())?;
    for copy in copies {
        buffers.push_reserved(Buffer::new(alloc, copy.into_vec()?)?);
    }
    Ok(buffers)
}
