ghost use Rattle.std.specs.Prelude.{◌≡◌};
ghost use Rattle.std.specs.List.{list_all};
ghost use Rattle.octets.specs.Bytes.{within};

/// Whether each byte lies between two, both included.
pub fn all_within(bytes: &[u8], low: u8, high: u8) -> bool
    ensures { result ≡ list_all (within low high) bytes.now }
{
    bytes.iter().all(|byte| (low..=high).contains(byte))
}
