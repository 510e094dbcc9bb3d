use der_small::{Decode, Encode, Error};

/// Whether the value is written as this encoding, and read from it.
pub(super) fn is_written_as<'a, T: Encode + Decode<'a> + PartialEq>(
    rt: &HostRuntime,
    value: &T,
    encoding: &'a [u8],
) -> Result<bool, Error> {
    let written = value.to_der(rt.alloc())?;
    let read = T::from_der(encoding)?;
    let len = value.encoded_len()?.get() as usize;
    Ok(written.as_slice() == encoding && read == *value && len == encoding.len())
}

/// Whether no front of the bytes is a value of the type.
pub(super) fn is_malformed<'a, T: Decode<'a>>(bytes: &'a [u8]) -> bool {
    match T::from_der(bytes) {
        Ok(_) => false,
        Err(error) => error == Error::Malformed,
    }
}
