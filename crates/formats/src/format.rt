//! The formats and their names.
ghost use Rattle.std.specs.Prelude.{◌≡◌};
ghost use Rattle.std.specs.Str.{bytes_eq};
ghost use Rattle.formats.specs.Names as spec;
ghost use Rattle.formats.specs.Names.{without_dashes};

/// A format that the API server tests.
#[derive(Clone, Copy, Debug, PartialEq, Eq, Drop)]
pub enum Format {
    /// 24 hexadecimal digits.
    BsonObjectId,
    /// Base64 with padding, not empty.
    Byte,
    /// An IPv4 or IPv6 address and the length of a prefix.
    Cidr,
    /// The number of a credit card, with any other characters between its digits.
    CreditCard,
    /// A day, as `2006-01-02`.
    Date,
    /// A day and a time of it, as `2006-01-02T15:04:05Z`; what stands behind a second `t` is ignored.
    DateTime,
    /// A duration of Go, or a text in which a number stands before a unit.
    Duration,
    /// An address as mail has it, with a name before it or not.
    Email,
    /// Three or six hexadecimal digits, behind `#` or not.
    HexColor,
    /// A host name.
    Hostname,
    /// An IPv4 address, or an IPv6 address that ends as one.
    Ipv4,
    /// An IPv6 address.
    Ipv6,
    /// An ISBN of 10 or of 13 digits.
    Isbn,
    /// An ISBN of 10 digits.
    Isbn10,
    /// An ISBN of 13 digits.
    Isbn13,
    /// A DNS-1123 subdomain, the name of most objects.
    LongName,
    /// A hardware address of 6, 8 or 20 bytes.
    Mac,
    /// Any text.
    Password,
    /// A colour as `rgb(0, 128, 255)`.
    RgbColor,
    /// A DNS-1123 label.
    ShortName,
    /// A social security number, as `123-45-6789`.
    Ssn,
    /// A URI as a request has it: absolute, or a path.
    Uri,
    /// A UUID of any version.
    Uuid,
    /// A UUID of version 3.
    Uuid3,
    /// A UUID of version 4.
    Uuid4,
    /// A UUID of version 5.
    Uuid5,
}

impl Format {
    /// The format of this name, in which dashes do not count, and `None` where no format has it: then nothing is asked of a text.
    pub fn named(name: &str) -> Option<Format>
        ensures { result ≡ spec.named name.now }
    {
        if spells(name, "bsonobjectid") {
            Some(Format::BsonObjectId)
        } else if spells(name, "byte") {
            Some(Format::Byte)
        } else if spells(name, "cidr") {
            Some(Format::Cidr)
        } else if spells(name, "creditcard") {
            Some(Format::CreditCard)
        } else if spells(name, "date") {
            Some(Format::Date)
        } else if spells(name, "datetime") {
            Some(Format::DateTime)
        } else if spells(name, "duration") {
            Some(Format::Duration)
        } else if spells(name, "email") {
            Some(Format::Email)
        } else if spells(name, "hexcolor") {
            Some(Format::HexColor)
        } else if spells(name, "hostname") {
            Some(Format::Hostname)
        } else if spells(name, "ipv4") {
            Some(Format::Ipv4)
        } else if spells(name, "ipv6") {
            Some(Format::Ipv6)
        } else if spells(name, "isbn") {
            Some(Format::Isbn)
        } else if spells(name, "isbn10") {
            Some(Format::Isbn10)
        } else if spells(name, "isbn13") {
            Some(Format::Isbn13)
        } else if spells(name, "k8slongname") {
            Some(Format::LongName)
        } else if spells(name, "mac") {
            Some(Format::Mac)
        } else if spells(name, "password") {
            Some(Format::Password)
        } else if spells(name, "rgbcolor") {
            Some(Format::RgbColor)
        } else if spells(name, "k8sshortname") {
            Some(Format::ShortName)
        } else if spells(name, "ssn") {
            Some(Format::Ssn)
        } else if spells(name, "uri") {
            Some(Format::Uri)
        } else if spells(name, "uuid") {
            Some(Format::Uuid)
        } else if spells(name, "uuid3") {
            Some(Format::Uuid3)
        } else if spells(name, "uuid4") {
            Some(Format::Uuid4)
        } else if spells(name, "uuid5") {
            Some(Format::Uuid5)
        } else {
            None
        }
    }
}

/// Whether the name is this word, with or without dashes.
fn spells(name: &str, word: &str) -> bool
    ensures { result ≡ bytes_eq (without_dashes name.now) word.now }
{
    let mut rest = word.as_bytes();
    for byte in name.as_bytes() {
        if *byte != b'-' {
            match rest {
                [first, tail @ ..] if first == byte => rest = tail,
                _ => return false,
            }
        }
    }
    rest.is_empty()
}
