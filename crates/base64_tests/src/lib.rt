//! Tests of `base64_alphabet`, `base64_alphabets`, `base64_crypt` and `base64ct`, over their public items alone.
#![tactic(auto)]

#[cfg(test)]
mod alphabets;
#[cfg(test)]
mod checks;
#[cfg(test)]
mod decoders;
#[cfg(test)]
mod encoders;
#[cfg(test)]
mod groups;
#[cfg(test)]
mod lanes;
#[cfg(test)]
mod low_end;
#[cfg(test)]
mod texts;
