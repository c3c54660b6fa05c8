use rs_base::{Bytes, NoMemory};

/// What the cases of a program call, with what lives until the next empty line.
pub trait Subject {
    /// Writes what the call of this name answers. `Ok(false)` where the words are no call of it: its name is another,
    /// there are too few words or too many, or one of them does not say what it should.
    fn answer(&mut self, name: &[u8], args: &[Bytes], out: &mut Bytes) -> Result<bool, NoMemory>;

    /// Forgets what earlier calls made.
    fn begin(&mut self);
}
