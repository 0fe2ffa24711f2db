/// What came of a line.
pub enum Taken {
    /// It was done and printed.
    Printed,
    /// It is none of the language.
    Bad,
    /// The output failed within it.
    WriteFault,
    /// Memory ran out, and nothing of it was printed.
    NoMemory,
}
