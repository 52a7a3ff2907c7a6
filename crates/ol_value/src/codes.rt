// The operators and the types, from their codes in the file.
use ol_spec::Cause;

// The unary operators, in the order of their codes.
#[derive(Clone, Copy)]
pub(crate) enum Unary {
    Not,
    Neg,
}

// The binary operators, in the order of their codes.
#[derive(Clone, Copy)]
pub(crate) enum Binary {
    And,
    Or,
    Xor,
    Implies,
    Eq,
    Neq,
    Lt,
    Le,
    Gt,
    Ge,
    Add,
    Sub,
    Mul,
    Div,
    Mod,
    BitAnd,
    BitOr,
    BitXor,
    Shl,
    Shr,
}

// An unknown code fails as an operator that does not take its operands.
impl TryFrom<u8> for Unary {
    type Error = Cause;

    ghost use Rattle.ol_value.specs.Codes.{UnaryDecodes};

    ghost try_from_gives = { UnaryDecodes };

    fn try_from(code: u8) -> Result<Self, Cause> {
        match code {
            0 => Ok(Unary::Not),
            1 => Ok(Unary::Neg),
            _ => Err(Cause::Other),
        }
    }
}

// Likewise.
impl TryFrom<u8> for Binary {
    type Error = Cause;

    ghost use Rattle.ol_value.specs.Codes.{BinaryDecodes};

    ghost try_from_gives = { BinaryDecodes };

    fn try_from(code: u8) -> Result<Self, Cause> {
        match code {
            0 => Ok(Binary::And),
            1 => Ok(Binary::Or),
            2 => Ok(Binary::Xor),
            3 => Ok(Binary::Implies),
            4 => Ok(Binary::Eq),
            5 => Ok(Binary::Neq),
            6 => Ok(Binary::Lt),
            7 => Ok(Binary::Le),
            8 => Ok(Binary::Gt),
            9 => Ok(Binary::Ge),
            10 => Ok(Binary::Add),
            11 => Ok(Binary::Sub),
            12 => Ok(Binary::Mul),
            13 => Ok(Binary::Div),
            14 => Ok(Binary::Mod),
            15 => Ok(Binary::BitAnd),
            16 => Ok(Binary::BitOr),
            17 => Ok(Binary::BitXor),
            18 => Ok(Binary::Shl),
            19 => Ok(Binary::Shr),
            _ => Err(Cause::Other),
        }
    }
}

// What an integer type makes of a number: its low bits, so many, read with a sign or without; or, with 64 bits, the number itself.
// That a width is 1 to 32 bits stands in three clauses, as `Narrow`: a struct with a ghost field round the width would be named in each of the six arms
// below, and an enum of the three widths would need a function to their bits, where `Signed(8)` says it.
#[derive(Clone, Copy)]
pub enum IntType {
    Signed(u8),
    Unsigned(u8),
    Whole,
}

// A type (docs/FORMAT.md, "Types"). An Enum's number stands behind its code, and is the caller's.
#[derive(Clone, Copy)]
pub enum DataType {
    Bool,
    Int(IntType),
    Float32,
    Float64,
    Char,
    Enum,
}

// A code above 12, which no file has that reads without fault, is read as an Enum's.
impl From<u8> for DataType {
    ghost use Rattle.ol_value.specs.Codes.{TypeDecodes};

    ghost from_gives = { TypeDecodes };

    fn from(code: u8) -> Self {
        match code {
            0 => DataType::Bool,
            1 => DataType::Int(IntType::Signed(8)),
            2 => DataType::Int(IntType::Signed(16)),
            3 => DataType::Int(IntType::Signed(32)),
            4 => DataType::Int(IntType::Whole),
            5 => DataType::Int(IntType::Unsigned(8)),
            6 => DataType::Int(IntType::Unsigned(16)),
            7 => DataType::Int(IntType::Unsigned(32)),
            8 => DataType::Int(IntType::Whole),
            9 => DataType::Float32,
            10 => DataType::Float64,
            11 => DataType::Char,
            _ => DataType::Enum,
        }
    }
}
