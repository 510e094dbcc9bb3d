//! Texts that are printed byte by byte.
ghost use Rattle.std.specs.Prelude.{◌≡◌, ◌++◌, ◌<◌, true, OnOk};
ghost use Rattle.std.specs.Fmt.{digit_glyph};
ghost use Rattle.tool_commands.specs.Printed.{printed, printed_byte};

use std::alloc::AllocError;

fn hex_digit(n: u8) -> u8
    requires { n < 16 }
    ensures { result ≡ digit_glyph true n }
{
    if n < 10 { b'0' + n } else { b'A' + (n - 10) }
}

fn push_byte(out: &mut Vec<u8>, byte: u8) -> Result<(), AllocError>
    ensures { OnOk result (out.new.items ≡ out.old.items ++ printed_byte byte) }
{
    if 32 < byte && byte < 127 && byte != b'%' {
        out.extend_from_slice(&[byte])
    } else {
        out.extend_from_slice(&[b'%', hex_digit(byte / 16), hex_digit(byte % 16)])
    }
}

/// Appends a text of which no byte is known: visible ASCII characters but `%` as they are, every other byte as `%` and
/// two hexadecimal digits. It errs for want of memory alone.
pub fn push_printed(out: &mut Vec<u8>, text: &[u8]) -> Result<(), AllocError>
    ensures { OnOk result (out.new.items ≡ out.old.items ++ printed text.now) }
{
    for byte in text {
        push_byte(out, *byte)?;
    }
    Ok(())
}
