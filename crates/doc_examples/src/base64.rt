//! Texts of Base64.
use base64_pieces::encode_pieces;
use base64ct::{Base64, Base64UrlUnpadded, Decoder, Encoder, Encoding, Error, LineEnding};
use std::alloc::Global;

// cut: decode_untrusted
/// The bytes that an untrusted text stands for, in the alphabet of URLs without padding.
pub fn decode_untrusted(alloc: Global, text: &str) -> Result<Vec<u8>, Error> {
    Base64UrlUnpadded::decode_vec(alloc, text)
}
// end

// cut: read_head
/// The first four bytes of a text in lines of 64 characters, whatever ends them, and how many bytes follow.
pub fn read_head(text: &[u8]) -> Result<([u8; 4], usize), Error> {
    let mut head = [0; 4];
    let mut decoder: Decoder<Base64> = Decoder::new_wrapped(text, 64)?;
    decoder.decode(&mut head)?;
    Ok((head, decoder.remaining_len()))
}
// end

// cut: in_short_lines
/// The text of two pieces of bytes in lines of four characters.
pub fn in_short_lines<'o>(
    output: &'o mut [u8],
    one: &[u8],
    other: &[u8],
) -> Result<&'o str, Error> {
    let mut encoder: Encoder<Base64> = Encoder::new_wrapped(output, 4, LineEnding::LF)?;
    encoder.encode(one)?;
    encoder.encode(other)?;
    encoder.finish()
}
// end

// cut: of_pieces
/// The text of all the pieces in lines of 64 characters, however the bytes are cut.
pub fn of_pieces<'o>(output: &'o mut [u8], pieces: &[&[u8]]) -> Result<&'o str, Error> {
    encode_pieces::<Base64>(output, Some((64, LineEnding::LF)), pieces)
}
// end
