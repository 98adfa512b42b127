//! Texts of formats.
ghost use Rattle.std.specs.Prelude.{◌≡◌};
ghost use Rattle.suggest.specs.View.{texts_at};
ghost use Rattle.suggest.specs.Suggested.Formats;

/// Two texts of the format, none of one that is not known (OpenAPI 3.0, `format`).
pub(crate) fn texts_of_format(format: &str) -> &'static [&'static str]
    ensures { texts_at result.now ≡ Formats.texts_of_format format.now }
{
    match format {
        "date-time" => &["1970-01-01T00:00:00Z", "2030-12-31T23:59:59Z"],
        "date" => &["1970-01-01", "2030-12-31"],
        "uri" => &["https://example.org", "https://example.org/a"],
        "hostname" => &["example.org", "a.example.org"],
        "ipv4" => &["192.0.2.1", "198.51.100.1"],
        "ipv6" => &["2001:db8::1", "2001:db8::2"],
        "cidr" => &["192.0.2.0/24", "2001:db8::/32"],
        "uuid" => &[
            "00000000-0000-4000-8000-000000000000",
            "ffffffff-ffff-4fff-bfff-ffffffffffff",
        ],
        "byte" => &["YQ==", "YWFh"],
        "email" => &["a@example.org", "b@example.org"],
        "duration" => &["1s", "1h"],
        _ => &[],
    }
}
