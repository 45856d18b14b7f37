// The other area and the memory: marked before a delivery, and counted after one that blanked them.

// No run here is of this byte alone, and it isn't zero: what is zero after a delivery was blanked by that delivery, and not by one before it.
pub(crate) const MARK: u8 = b'.';

// How many bytes are zero: one expression, which a crate for both programs would not make plainer.
pub(crate) fn zeros(bytes: &[u8]) -> usize {
    bytes.iter().filter(|byte| **byte == 0).count()
}
