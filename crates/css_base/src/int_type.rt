//! Integer types.

/// An integer type of the language. `char` and `unsigned char` are one type.
#[derive(Clone, Copy, PartialEq, Eq, PartialOrd, Ord, Debug)]
pub enum IntType {
    /// 8 bits without sign: `char` and `unsigned char`.
    UChar,
    /// 8 bits with sign: `signed char`.
    SChar,
    /// 16 bits with sign: `short`.
    Short,
    /// 16 bits without sign: `unsigned short`.
    UShort,
    /// 32 bits with sign: `int`.
    Int,
    /// 32 bits without sign: `unsigned int`.
    UInt,
    /// 32 bits with sign: `long`.
    Long,
    /// 32 bits without sign: `unsigned long`.
    ULong,
    /// 64 bits with sign: `long long`.
    LongLong,
    /// 64 bits without sign: `unsigned long long`.
    ULongLong,
}
