//! How long a host name and its labels are.
ghost use Rattle.std.specs.Prelude.{◌≡◌};
ghost use Rattle.formats.specs.Hostnames as spec;

pub(crate) fn fits(text: &str) -> bool
    ensures { result ≡ spec.fits text.now }
{
    text.len() <= 255 && text.split('.').all(|label| label.len() <= 63)
}
