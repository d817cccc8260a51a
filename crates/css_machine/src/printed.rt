//! What one `out` writes.
ghost use Rattle.std.specs.Prelude.{◌≡◌, ◌∷◌, [], ◌^◌, ◌%◌, IfOk};
ghost use Rattle.css_isa.specs.Cells.{text_of, int_of};

use css_base::NoMemory;
use css_isa::Conversion;
use std::alloc::Global;
use std::marker::Model;

/// The bytes that one `out` writes. Contracts see their list.
#[derive(Drop)]
pub struct Printed {
    bytes: Vec<u8>,
}

impl Model for Printed {
    ghost use Rattle.std.specs.Prelude.{ℕ, List};

    ghost Value = { List ℕ };

    ghost view = { λ p. p.bytes.items };
}

impl Printed {
    /// The text of a cell, as a conversion has it: 1 to 20 bytes. The only error is want of memory.
    pub fn new(alloc: Global, conversion: Conversion, cell: u64) -> Result<Printed, NoMemory>
        ensures { IfOk result (λ p. p ≡ text_of conversion cell) }
    {
        match conversion {
            Conversion::Char => Printed::char(alloc, cell),
            Conversion::Signed => Printed::signed(alloc, cell),
            Conversion::Unsigned => Printed::unsigned(alloc, cell),
            Conversion::Hexadecimal => Printed::hexadecimal(alloc, cell),
            Conversion::Wide => Printed::wide(alloc, cell),
        }
    }

    // One byte.
    fn char(alloc: Global, cell: u64) -> Result<Printed, NoMemory>
        ensures { IfOk result (λ p. p ≡ text_of Conversion.Char cell) }
    {
        let mut bytes = Vec::new(alloc);
        bytes.push((cell % 0x100) as u8)?;
        Ok(Printed { bytes })
    }

    // The low 32 bits as a signed number.
    fn signed(alloc: Global, cell: u64) -> Result<Printed, NoMemory>
        ensures { IfOk result (λ p. p ≡ text_of Conversion.Signed cell) }
    {
        let number = ((cell % 0x1_0000_0000) as u32).cast_signed();
        let bytes = format!(in alloc; "{number}")?.into_bytes();
        Ok(Printed { bytes })
    }

    // The low 32 bits as a number without sign.
    fn unsigned(alloc: Global, cell: u64) -> Result<Printed, NoMemory>
        ensures { IfOk result (λ p. p ≡ text_of Conversion.Unsigned cell) }
    {
        let number = (cell % 0x1_0000_0000) as u32;
        let bytes = format!(in alloc; "{number}")?.into_bytes();
        Ok(Printed { bytes })
    }

    // The low 32 bits in hexadecimal digits.
    fn hexadecimal(alloc: Global, cell: u64) -> Result<Printed, NoMemory>
        ensures { IfOk result (λ p. p ≡ text_of Conversion.Hexadecimal cell) }
    {
        let number = (cell % 0x1_0000_0000) as u32;
        let bytes = format!(in alloc; "{number:x}")?.into_bytes();
        Ok(Printed { bytes })
    }

    // The whole cell as a signed number.
    fn wide(alloc: Global, cell: u64) -> Result<Printed, NoMemory>
        ensures { IfOk result (λ p. p ≡ text_of Conversion.Wide cell) }
    {
        let number = cell.cast_signed();
        let bytes = format!(in alloc; "{number}")?.into_bytes();
        Ok(Printed { bytes })
    }

    /// Lends the bytes.
    pub fn as_slice(&self) -> &[u8]
        ensures { result.now ≡ self.now }
    {
        self.bytes.as_slice()
    }
}
