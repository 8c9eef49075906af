// Texts: bytes within bytes, and the two of a link.
ghost use Rattle.std.specs.Prelude.{◌≡◌};
ghost use Rattle.model.specs.ModelCheck.{name_of, carrier_of};
ghost use Rattle.model.specs.Text as S;

use crate::Link;

// The bytes from an offset up to another; none where they are not all there.
pub fn text(bytes: &[u8], from: usize, to: usize) -> &[u8]
    ensures { result.now ≡ S.text bytes.now from to }
{
    bytes.get(from..to).unwrap_or(&[])
}

impl Link {
    pub fn name_in(self, bytes: &[u8]) -> &[u8]
        ensures { result.now ≡ name_of bytes.now self }
    {
        text(bytes, self.name + 2, self.carrier)
    }

    // The name of what carries it.
    pub fn carrier_in(self, bytes: &[u8]) -> &[u8]
        ensures { result.now ≡ carrier_of bytes.now self }
    {
        text(bytes, self.carrier + 2, self.kind)
    }
}
