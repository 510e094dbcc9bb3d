//! The texts of rules, and the version.
ghost use Rattle.std.specs.Prelude.{◌≡◌, ◌≢◌, ◌↔◌, [], option_map, Some, None, IfSome, IfNone};
ghost use Rattle.kamzirda_c.specs.Buffers.{Wanting, Written};
ghost use Rattle.kamzirda_c.specs.Rules.{rule_text};
ghost use Rattle.kamzirda_c.specs.Status.{done, no_choice, no_room};

use crate::buffers::fill;
use crate::status::NO_CHOICE;

fn rule_text(rule: u32) -> &'static str
    ensures { result.now ≡ rule_text rule }
{
    match rule {
        1 => "invalid Base64 encoding",
        2 => "invalid Base64 length",
        3 => "malformed",
        4 => "trailing data",
        5 => "no identity",
        6 => "withdrawal with identities",
        7 => "subject is no SPIFFE ID",
        8 => "algorithms differ",
        9 => "public keys differ",
        10 => "domain is no trust domain",
        11 => "authorities are no key set",
        12 => "no bundle",
        21 => "empty",
        22 => "trust domain missing",
        23 => "wrong scheme",
        24 => "bad trust domain character",
        25 => "bad path character",
        26 => "empty segment",
        27 => "dot segment",
        28 => "trailing slash",
        29 => "SPIFFE ID too long",
        30 => "trust domain too long",
        31 => "not UTF-8",
        _ => "",
    }
}

/// The text of a rule, in ASCII.
#[unsafe(no_mangle)]
pub extern "C" fn kamzirda_rule_text(rule: u32, text: &mut [u8], len: &mut usize) -> u32
    ensures done { result ≡ done → Written text.old text.new len.new (rule_text rule) }
    ensures no_choice { (result ≡ no_choice) ↔ (rule_text rule ≡ []) }
    ensures no_room { result ≢ done → result ≢ no_choice → (result ≡ no_room) × Wanting text.old text.new len.new (rule_text rule) }
    ensures same { result ≡ no_choice → (text.new ≡ text.old) × (len.new ≡ len.old) }
{
    let found = rule_text(rule);
    if found.is_empty() {
        return NO_CHOICE;
    }
    fill(found.as_bytes(), text, len)
}

/// The version of these calls: 10,000 times the major one, 100 times the minor one, and the patch.
#[unsafe(no_mangle)]
pub extern "C" fn kamzirda_version() -> u32
    ensures { result ≡ 100 }
{
    100
}
