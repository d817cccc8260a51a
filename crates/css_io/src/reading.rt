//! Reading a source to its end.
ghost use Rattle.std.specs.Prelude.{◌≡◌, ◌+◌, ◌<◌, ◌≤◌, ◌↔◌, ℕ, List, [], ◌++◌, Option, length, take, min, vec_len, Some, IfOk, IfErr, IfSome, IsErrOf};
ghost use Rattle.css_io.specs.Outside.{Rose, Gives};

use crate::failed::Failed;
use crate::source::Source;
use std::alloc::{AllocError, Global};
use thiserror::Error;

/// The most bytes that are asked for in one read.
const PIECE: usize = 65_536;

/// Why a source wasn't read to its end.
#[derive(Clone, Copy, PartialEq, Eq, Debug, Error)]
pub enum ReadFault {
    /// More bytes came than the limit allows.
    #[error("more bytes than the limit allows")]
    TooLong,
    /// The source failed, and its count rose.
    #[error("the source failed")]
    Failed,
    /// There was no memory.
    #[error("no memory")]
    NoMemory,
}

impl From<AllocError> for ReadFault {
    ghost use Rattle.css_io.specs.declared.reading.ReadFault.TheVariants.{NoMemory};

    ghost from_gives = { λ _ fault. fault ≡ NoMemory };

    fn from(_error: AllocError) -> ReadFault {
        ReadFault::NoMemory
    }
}

/// All bytes that are left, at most `limit`. After an `Err` the source has given what it gave: the number taken says
/// how much, at most one byte more than `limit`.
pub fn read_all<I: Source>(alloc: Global, input: &mut I, limit: usize) -> Result<Vec<u8>, ReadFault>
    ensures ok { IfOk result (λ bytes.
        IfSome (I.left input.old) (λ left. (bytes.items ≡ left) × (I.left input.new ≡ Some []))) }
    ensures limit { IfOk result (λ bytes. length bytes.items ≤ limit) }
    ensures counts { IfOk result (λ bytes. I.taken input.new ≡ I.taken input.old + length bytes.items) }
    ensures too_long { IsErrOf result ReadFault.TooLong ↔ (I.taken input.old + limit < I.taken input.new) }
    ensures failed { IsErrOf result ReadFault.Failed → Rose (I.faults input.old) (I.faults input.new) }
    ensures never_falls { I.faults input.old ≤ I.faults input.new }
    ensures grows { I.taken input.old ≤ I.taken input.new }
    ensures no_more { I.taken input.new ≤ I.taken input.old + limit + 1 }
{
    let mut piece = new_piece(alloc, limit.saturating_add(1))?;
    let mut bytes = Vec::new(alloc);
    loop {
        // One byte past the limit tells that there are too many.
        let left = limit - bytes.len();
        let room = piece.len().min(left.saturating_add(1));
        let count = append_next(input, &mut piece[..room], &mut bytes, left)?;
        if count == 0 {
            return Ok(bytes);
        }
    }
}

/// Memory for reads of at most this many bytes, and at most `PIECE`.
pub(crate) fn new_piece(alloc: Global, most: usize) -> Result<Vec<u8>, AllocError>
    ensures { IfOk result (λ piece. vec_len piece ≡ min most PIECE) }
{
    vec![in alloc; 0; most.min(PIECE)]
}

/// Reads the next bytes into a part and appends them. Gives their number, which is 0 at the end. `TooLong` where they are
/// more than `limit`.
fn append_next<I: Source>(
    input: &mut I,
    part: &mut [u8],
    bytes: &mut Vec<u8>,
    limit: usize,
) -> Result<usize, ReadFault>
    requires { 0 < length part.old }
    ensures appends { IfOk result (λ n. bytes.new.items ≡ bytes.old.items ++ take n part.new) }
    ensures count { IfOk result (λ n. vec_len bytes.new ≡ vec_len bytes.old + n) }
    ensures limit { IfOk result (λ n. n ≤ limit) }
    ensures gives { IfOk result (λ n. Gives (I.left input.old) (I.left input.new) (take n part.new)) }
    ensures end { IfOk result (λ n. n ≡ 0 → IfSome (I.left input.old) (λ left. left ≡ [])) }
    ensures counts { IfOk result (λ n. I.taken input.new ≡ I.taken input.old + n) }
    ensures too_long { IfErr result (λ fault.
        (fault ≡ ReadFault.TooLong) ↔ (I.taken input.old + limit < I.taken input.new)) }
    ensures failed { IfErr result (λ fault.
        fault ≡ ReadFault.Failed → Rose (I.faults input.old) (I.faults input.new)) }
    ensures never_falls { I.faults input.old ≤ I.faults input.new }
    ensures grows { I.taken input.old ≤ I.taken input.new }
    ensures no_more { I.taken input.new ≤ I.taken input.old + length part.old }
{
    let Ok(count) = input.read(part) else {
        return Err(ReadFault::Failed);
    };
    if count > limit {
        return Err(ReadFault::TooLong);
    }
    bytes.extend_from_slice(&part[..count])?;
    Ok(count)
}
