//! The report's lines for images of memory.
ghost use Rattle.std.specs.Prelude.{◌≡◌, ◌+◌, ◌<◌, ◌^◌, ◌++◌, IfOk, length, string_bytes};
ghost use Rattle.css_report.specs.Images.{facts_of, place_words, image_line};

use css_base::NoMemory;
use css_record::{ImageHead, ImageKind};
use sha2::{Digest, Sha256};
use std::alloc::Global;

/// What is reported of an image.
#[derive(Clone, Copy)]
pub struct ImageFacts {
    pub head: ImageHead,
    /// The number of its bytes.
    pub length: u64,
    /// The SHA-256 of its bytes.
    pub digest: [u8; 32],
}

/// The facts of an image whose bytes are the three parts, one behind the other.
pub fn image_facts(head: ImageHead, first: &[u8], second: &[u8], third: &[u8]) -> ImageFacts
    requires { length first.now + length second.now + length third.now < 2 ^ 64 }
    ensures { result ≡ facts_of head (first.now ++ (second.now ++ third.now)) }
{
    let mut hasher = Sha256::new();
    hasher.update(first);
    hasher.update(second);
    hasher.update(third);
    ImageFacts {
        head,
        length: (first.len() + second.len() + third.len()) as u64,
        digest: hasher.finalize(),
    }
}

/// The line of an image. The only error is want of memory.
pub fn image_line(alloc: Global, value: &ImageFacts) -> Result<Vec<u8>, NoMemory>
    ensures { IfOk result (λ line. line.items ≡ image_line value.now) }
{
    let place = place_text(alloc, &value.head)?;
    let length = value.length;
    let digest = hex::encode(alloc, value.digest.as_slice())?;
    let line = format!(in alloc; "image {place} bytes {length} sha256 {digest}\n")?;
    Ok(line.into_bytes())
}

/// Where an image is made.
fn place_text(alloc: Global, head: &ImageHead) -> Result<String, NoMemory>
    ensures { IfOk result (λ text. string_bytes text ≡ place_words head.now) }
{
    let line = head.line.number();
    let address = head.address;
    match head.kind {
        ImageKind::Barrier => Ok(format!(in alloc; "barrier line {line}")?),
        ImageKind::Finish => Ok(format!(in alloc; "finish line {line}")?),
        ImageKind::Wait => Ok(format!(in alloc; "wait line {line} address {address}")?),
    }
}
