//! Single groups and characters of Base64.
use base64ct::{Alphabet, Base64, Base64Crypt, Base64ShaCrypt};

// cut: one_group
/// The four characters of three bytes, and the place of a character in the alphabet, or -1.
pub fn one_group(bytes: &[u8; 3], character: u8) -> ([u8; 4], i16) {
    let mut text = [0; 4];
    Base64::encode_3bytes(bytes, &mut text);
    (text, Base64::decode_6bits(character))
}
// end

// cut: both_ends
/// The characters of three bytes in the alphabet of crypt, read from the high end and, for SHA-crypt, from the low one.
pub fn both_ends(bytes: &[u8; 3]) -> ([u8; 4], [u8; 4]) {
    let (mut high, mut low) = ([0; 4], [0; 4]);
    Base64Crypt::encode_3bytes(bytes, &mut high);
    Base64ShaCrypt::encode_3bytes(bytes, &mut low);
    (high, low)
}
// end
