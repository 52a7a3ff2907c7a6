// The codes of types (docs/FORMAT.md, "Types") that have more behind them: an Enum's its number, an array's its length and its elements' type. A file's types are read by whether a byte is
// below them or one of them, and no other code is asked for there; ol_value's DataType is what a scalar's code stands for.
pub const ENUM: u8 = 12;

pub const ARRAY: u8 = 13;
