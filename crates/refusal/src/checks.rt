ghost use Rattle.std.specs.Prelude.{◌≡◌};
ghost use Rattle.refusal.specs.Chain.{demand as demanded};

/// The fault, unless the test holds.
pub fn demand<F: Copy>(holds: bool, fault: F) -> Result<(), F>
    ensures { result ≡ demanded holds fault }
{
    if holds { Ok(()) } else { Err(fault) }
}
