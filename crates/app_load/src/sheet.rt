// A sink that keeps in memory what is printed.

use outside_io::{Sink, SinkFault};

/// A sink in memory: each printed piece is added at the end of the text. With a sheet, a text is whole before any part
/// of the text goes to the output of the program.
#[derive(Drop)]
pub struct Sheet {
    /// The bytes so far.
    pub text: Vec<u8>,
    prints: u64,
}

impl Sheet {
    ghost use Rattle.std.specs.Prelude.{◌≡◌};

    /// A sheet that starts with `text`. Nothing has been printed to the sheet yet.
    pub fn new(text: Vec<u8>) -> Sheet
        ensures text { result.text ≡ text }
    {
        Sheet { text, prints: 0 }
    }
}

impl Sink for Sheet {
    ghost use Rattle.std.specs.Prelude.{Some};

    ghost seen = { λ s. record { text = Some s.text.items; prints = s.prints; faults = 0 } };

    fn put(&mut self, bytes: &[u8]) -> Result<(), SinkFault> {
        self.prints = self.prints.saturating_add(1);
        self.text.extend_from_slice(bytes)?;
        Ok(())
    }
}
