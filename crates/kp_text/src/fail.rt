/// Why no line is answered.
#[derive(Clone, Copy, Debug, PartialEq, Eq)]
pub enum LineFail {
    /// The bytes are no line of the language.
    BadLine,
    /// Memory ran out.
    NoMemory,
}
