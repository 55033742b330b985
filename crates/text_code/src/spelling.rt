ghost use Rattle.std.specs.Prelude.{◌≡◌, ◌≤◌, ◌&&◌, leb, length as len, take, if◌then◌else◌, Some, None, nat_le};
ghost use Rattle.std.specs.Option.{option_map};

/// The 1 to 4 bytes of one character.
// A buffer with a length: a spelling outlives its bytes, there is no heap, and a kind of vector of four would be no
// plainer.
#[derive(Clone, Copy)]
pub struct Spelling {
    bytes: [u8; 4],
    length: usize,
    ghost fits: { (1 ≤ length) × (length ≤ 4) },
}

/// Four bytes that begin with these.
fn padded(bytes: &[u8]) -> [u8; 4]
    requires { len bytes.now ≤ 4 }
    ensures front { take (len bytes.now) result ≡ bytes.now }
{
    let mut all = [0; 4];
    all[0..bytes.len()].copy_from_slice(bytes);
    all
}

impl Spelling {
    // an Option, no TryFrom: no error would tell more than that there are none or too many
    /// The spelling of these bytes, if there are 1 to 4.
    pub fn new(bytes: &[u8]) -> Option<Spelling>
        ensures holds { option_map (λ s. take s.length s.bytes) result ≡ (if leb 1 (len bytes.now) && nat_le (len bytes.now) 4 then Some bytes.now else None) }
    {
        if !(1..=4).contains(&bytes.len()) {
            return None;
        }
        Some(Spelling {
            bytes: padded(bytes),
            length: bytes.len(),
        })
    }

    /// The bytes.
    pub fn as_bytes(&self) -> &[u8]
        ensures value { result.now ≡ take self.now.length self.now.bytes }
    {
        &self.bytes[0..self.length]
    }
}
