//! Encoding of an input in pieces.
ghost use Rattle.std.specs.Prelude.{◌≡◌, ◌≤◌, ◌<◌, ◌++◌, ◌↔◌, length, IsOk, IfOk, IfErr, OnOk};
ghost use Rattle.std.specs.List.{flat_map};
ghost use Rattle.base64ct.specs.Encoder.{in_lines};
ghost use Rattle.base64_alphabet.specs.Encoding.{encoding_of};
ghost use Rattle.base64_pieces.specs.Pieces.{IsWideEnough};

use base64ct::{Encoder, Encoding, Error, LineEnding};

// Gives an encoder all pieces.
fn take_pieces<E: Encoding>(encoder: &mut Encoder<'_, E>, pieces: &[&[u8]]) -> Result<(), Error>
    requires { IsWideEnough encoder.old.lines }
    ensures taken { OnOk result (encoder.new.taken ≡ encoder.old.taken ++ flat_map (λ piece. piece.now) pieces.now) }
    ensures same { OnOk result ((encoder.new.room ≡ encoder.old.room) × (encoder.new.lines ≡ encoder.old.lines)) }
    ensures err { IfErr result (λ e. (e ≡ Error.InvalidLength) × (encoder.old.room < length (in_lines encoder.old.lines
        (encoding_of E.form (encoder.old.taken ++ flat_map (λ piece. piece.now) pieces.now))))) }
{
    for piece in pieces {
        encoder.encode(piece)?;
    }
    Ok(())
}

/// Writes the text of bytes that come in pieces to the front of an output, in lines where a width and an ending
/// are given: the text of all the bytes, however they are cut. `InvalidLength` tells that the output is empty,
/// that the text exceeds it, or that the width is below 4.
pub fn encode_pieces<'o, E: Encoding>(
    output: &'o mut [u8],
    lines: Option<(usize, LineEnding)>,
    pieces: &[&[u8]],
) -> Result<&'o str, Error>
    ensures text { IfOk result (λ text. text.now ≡ in_lines lines (encoding_of E.form (flat_map (λ piece. piece.now) pieces.now))) }
    ensures fits { IsOk result ↔ (IsWideEnough lines × (0 < length output.entry.now)
        × (length (in_lines lines (encoding_of E.form (flat_map (λ piece. piece.now) pieces.now))) ≤ length output.entry.now)) }
    ensures err { IfErr result (λ e. e ≡ Error.InvalidLength) }
{
    let mut encoder = match lines {
        None => Encoder::<E>::new(output)?,
        Some((width, ending)) => Encoder::<E>::new_wrapped(output, width, ending)?,
    };
    take_pieces(&mut encoder, pieces)?;
    encoder.finish()
}
