//! Tags.
ghost use Rattle.std.specs.Prelude.{ℕ};
ghost use Rattle.der_core.specs.Der.{IsTag};

/// A tag of one byte (X.690, 8.1.2): the class, whether the content is made of values, and the number.
#[derive(Clone, Copy, Debug, PartialEq, Eq, PartialOrd, Ord, Hash)]
pub struct Tag {
    byte: u8,
    ghost valid: { IsTag byte },
}

impl Tag {
    ghost use Rattle.std.specs.Prelude.{◌≡◌, MatchOption, option_map, if◌then◌else◌, Some, None};
    ghost use Rattle.der_core.specs.Der.{IsTag};
    ghost use Rattle.der_core.specs.Tag.{byte_of};

    /// The tag byte of an integer.
    pub const INTEGER: u8 = 0x02;

    /// The tag byte of a bit string.
    pub const BIT_STRING: u8 = 0x03;

    /// The tag byte of an octet string.
    pub const OCTET_STRING: u8 = 0x04;

    /// The tag byte of NULL.
    pub const NULL: u8 = 0x05;

    /// The tag byte of an object identifier.
    pub const OID: u8 = 0x06;

    /// The tag byte of a text in UTF-8.
    pub const UTF8_STRING: u8 = 0x0c;

    /// The tag byte of a sequence.
    pub const SEQUENCE: u8 = 0x30;

    /// The tag of this byte. None for 0, and for the first byte of a tag of several bytes, which has its five low bits set.
    pub fn new(byte: u8) -> Option<Tag>
        ensures { MatchOption result (IsTag byte → ⊥) (λ tag. IsTag byte × (byte_of tag ≡ byte)) }
    {
        if byte != 0 && byte % 32 != 31 {
            Some(Tag { byte })
        } else {
            None
        }
    }

    /// A byte that is known to be a tag, as one of the constants; `new` is the test.
    pub fn from_valid(byte: u8) -> Tag
        requires { IsTag byte }
        ensures { byte_of result ≡ byte }
    {
        Tag { byte }
    }

    /// The byte as it is written.
    pub fn byte(&self) -> u8
        ensures { result ≡ byte_of self.now }
    {
        self.byte
    }
}
