ghost use Rattle.std.specs.Prelude.{◌≡◌, ◌+◌, ◌≤◌, ◌∷◌, map, length, if◌then◌else◌, Some, None, nat_le};
ghost use Rattle.names.specs.View.{octets as octets_in, labels as labels_in};
ghost use Rattle.names.specs.Wire.{lower, wire, written, Wrote, WroteStar};

use crate::name::{MAX_NAME, Name, STAR};

const MAX_STARRED: usize = 253;

// Octets in lower case to the front of a buffer.
fn write_front(s: &[u8], out: &mut [u8])
    requires { length s.now ≤ length out.old }
    ensures { out.new ≡ written (map lower s.now) out.old }
{
    // Kept: an index into the buffer. To copy the octets and then to lower them goes over them twice, and takes half as long again.
    for (i, x) in s.iter().enumerate() {
        out[i] = x.to_ascii_lowercase();
    }
}

impl Name<'_> {
    // The wire form in lower case to the front of a buffer, and its length; what lies past it stays.
    // Kept: a buffer of the caller and a length, here and below, since the library has no heap.
    pub fn write_lower(&self, out: &mut [u8; MAX_NAME]) -> usize
        ensures value { result ≡ length (octets_in self.now) }
        ensures buffer { out.new ≡ written (map lower (octets_in self.now)) out.old }
        ensures name { Wrote (wire (labels_in self.now)) out.old result out.new }
    {
        write_front(self.octets, out);
        self.octets.len()
    }

    // The name with the label `*` before it, in lower case, to the front of a buffer, and its length; what lies past it
    // stays. There is none for a name of over 253 octets: then nothing is written.
    pub fn write_star(&self, out: &mut [u8; MAX_NAME]) -> Option<usize>
        ensures value { result ≡ (if nat_le (length (octets_in self.now)) 253 then Some (length (octets_in self.now) + 2) else None) }
        ensures buffer { out.new ≡ (if nat_le (length (octets_in self.now)) 253 then written (1 ∷ (42 ∷ map lower (octets_in self.now))) out.old else out.old) }
        ensures name { WroteStar (labels_in self.now) out.old result out.new }
    {
        let n = self.octets.len();
        if n > MAX_STARRED {
            return None;
        }
        out[0] = 1;
        out[1] = STAR;
        write_front(self.octets, &mut out[2..]);
        Some(n + 2)
    }
}
