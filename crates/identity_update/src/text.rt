//! From the text of an update to its document, and back.
ghost use Rattle.std.specs.Prelude.{◌≡◌, ◌<◌, ◌^◌, IfErr, IfOk, length, string_bytes};
ghost use Rattle.update_document.specs.Refs.{written_update};
ghost use Rattle.update_document.specs.Written.{ReadsUpdate};
ghost use Rattle.identity_update.specs.Reading.{HasLength, IsDocumentRefusal, IsTextRefusal, WritesBytes};
ghost use Rattle.identity_update.specs.Text.{IsWriteRefusal, text_of};

use crate::error::UpdateError;
use base64ct::{
    Base64, Decoder, Encoder, Encoding, LineEnding, wrapped_encoding_is_read_back, wrapped_len,
};
use std::alloc::Global;
use update_document::{UpdateFields, read_update};

/// The bytes whose Base64 the text is, in lines of this width.
pub(crate) fn decode_text(alloc: Global, text: &[u8], width: usize) -> Result<Vec<u8>, UpdateError>
    ensures ok { IfOk result (λ bytes. HasLength width text.now × WritesBytes width text.now bytes.items) }
    ensures err { IfErr result (IsTextRefusal width text.now) }
{
    let mut decoder = Decoder::<Base64>::new_wrapped(text, width)?;
    let mut bytes = Vec::with_capacity(alloc, decoder.remaining_len())?;
    decoder.append_to(&mut bytes)?;
    Ok(bytes)
}

/// What the document that the bytes are writes.
pub(crate) fn document_in(alloc: Global, bytes: &[u8]) -> Result<UpdateFields<'_>, UpdateError>
    ensures ok { IfOk result (λ document. ReadsUpdate bytes.now (written_update document)) }
    ensures err { IfErr result (IsDocumentRefusal bytes.now) }
{
    match read_update(alloc, bytes) {
        Ok(document) => Ok(document),
        Err(der_core::Error::OutOfMemory) => Err(UpdateError::OutOfMemory),
        Err(cause) => Err(UpdateError::Document(cause)),
    }
}

/// The Base64 of the bytes in lines of this width. No ending follows the last line.
pub(crate) fn encode_text(
    alloc: Global,
    bytes: &[u8],
    width: usize,
    ending: LineEnding,
) -> Result<String, base64ct::Error>
    requires some { 0 < length bytes.now }
    requires small { length bytes.now < 2 ^ 32 }
    ensures text { IfOk result (λ text. string_bytes text ≡ text_of width ending bytes.now) }
    ensures writes { IfOk result (λ text. HasLength width (string_bytes text) × WritesBytes width (string_bytes text) bytes.now) }
    ensures refusal { IfErr result (IsWriteRefusal width) }
{
    if width < 4 {
        return Err(base64ct::Error::InvalidLength);
    }
    let Some(room) = wrapped_len(width, ending, Base64::encoded_len(bytes)) else {
        unreachable!()
    };
    wrapped_encoding_is_read_back::<Base64>();
    let mut output = vec![in alloc; 0u8; room]?;
    let mut encoder = Encoder::<Base64>::new_wrapped(&mut output, width, ending)?;
    encoder.encode(bytes)?;
    let text = String::from_str(alloc, encoder.finish()?)?;
    Ok(text)
}
