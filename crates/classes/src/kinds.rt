// The classes of bytes.

#[derive(Clone, Copy, Debug, PartialEq, Eq)]
pub enum ByteClass {
    // a to z, 0 to 9, hyphen, asterisk.
    WordByte,
    Opening,
    Closing,
    Space,
    LineEnd,
    // Any other byte.
    Bad,
}
