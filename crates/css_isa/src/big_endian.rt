//! Numbers as big-endian bytes.
ghost use Rattle.std.specs.Prelude.{◌≡◌, ◌+◌, ◌≤◌, length};
ghost use Rattle.css_semantics.specs.Memory.{big_endian, big_endian_bytes, overlaid};
ghost use Rattle.css_isa.specs.Spaces.{bytes_of};

use crate::space::Width;

/// How many bytes an access has.
pub fn byte_count(width: Width) -> usize
    ensures { result ≡ bytes_of width }
{
    match width {
        Width::W8 => 1,
        Width::W16 => 2,
        Width::W32 => 4,
        Width::W64 => 8,
    }
}

/// The number that these bytes stand for.
#[inline]
pub fn number_of(width: Width, bytes: &[u8]) -> u64
    requires { length bytes.now ≡ bytes_of width }
    ensures { result ≡ big_endian bytes.now }
{
    match width {
        Width::W8 => u64::from(bytes[0]),
        Width::W16 => u64::from(u16::from_be_bytes([bytes[0], bytes[1]])),
        Width::W32 => u64::from(u32::from_be_bytes([bytes[0], bytes[1], bytes[2], bytes[3]])),
        Width::W64 => u64::from_be_bytes([
            bytes[0], bytes[1], bytes[2], bytes[3], bytes[4], bytes[5], bytes[6], bytes[7],
        ]),
    }
}

/// Writes the low bytes of a number over those from an index on.
#[inline]
pub fn write_number(bytes: &mut [u8], index: usize, width: Width, number: u64)
    requires { index + bytes_of width ≤ length bytes.old }
    ensures { bytes.new ≡ overlaid 0 bytes.old index (big_endian_bytes (bytes_of width) number) }
{
    match width {
        Width::W8 => overwrite(bytes, index, &[(number % 0x100) as u8]),
        Width::W16 => overwrite(bytes, index, &((number % 0x1_0000) as u16).to_be_bytes()),
        Width::W32 => overwrite(
            bytes,
            index,
            &((number % 0x1_0000_0000) as u32).to_be_bytes(),
        ),
        Width::W64 => overwrite(bytes, index, &number.to_be_bytes()),
    }
}

/// Writes bytes over those from an index on.
pub fn overwrite(bytes: &mut [u8], index: usize, new: &[u8])
    requires { index + length new.now ≤ length bytes.old }
    ensures { bytes.new ≡ overlaid 0 bytes.old index new.now }
{
    bytes[index..index + new.len()].copy_from_slice(new);
}
