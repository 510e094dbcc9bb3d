//! A law, as the contract of a function that does no work.
ghost use Rattle.identity_verify.specs.Decoding.{IsDecoding, base64url_octets};

/// There is a function that gives for each text of base64url the bytes that it stands for, of which the clauses of verification speak.
pub fn base64url_texts_have_octets()
    ensures { IsDecoding base64url_octets }
{}
