// Domains, and masks of them: domain D is worth 2^D.
ghost use Rattle.std.specs.Prelude.{◌≡◌, ◌<◌};
ghost use Rattle.model.specs.Table.{is_domain};
ghost use Rattle.model.specs.Bits.{has_bit};

// Whether this is a domain.
pub fn is_domain(d: u32) -> bool
    ensures { result ≡ is_domain d }
{
    d < 64
}

// Whether a mask has this domain.
pub(crate) fn has_bit(mask: u64, d: u32) -> bool
    requires { d < 64 }
    ensures { result ≡ has_bit mask d }
{
    (mask >> d) % 2 == 1
}
