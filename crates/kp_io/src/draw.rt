ghost use Rattle.std.specs.Prelude.{◌≡◌};

/// Bytes that nobody can guess.
pub trait Draw {
    /// The next 16 bytes.
    fn draw(&mut self) -> [u8; 16];
}

/// A draw in memory that gives the same bytes each time.
#[derive(Drop)]
pub struct MemoryDraw {
    bytes: [u8; 16],
}

impl MemoryDraw {
    /// A draw that gives these bytes.
    pub fn new(bytes: [u8; 16]) -> MemoryDraw
        ensures { result.bytes ≡ bytes }
    {
        MemoryDraw { bytes }
    }
}

impl Draw for MemoryDraw {
    fn draw(&mut self) -> [u8; 16]
        ensures bytes { result ≡ self.old.bytes }
        ensures same { self.new ≡ self.old }
    {
        self.bytes
    }
}
