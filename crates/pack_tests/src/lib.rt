//! Tests of `pack_update` and `pack_program`, over their public items alone. Texts of updates
//! are by a script outside this repository, from the grammar of `docs/FORMATS.md` alone: nested tag,
//! length and content, then Base64 in lines.
#![tactic(auto)]

#[cfg(test)]
mod checks;
#[cfg(test)]
mod order;
#[cfg(test)]
mod packing;
#[cfg(test)]
mod running;
#[cfg(test)]
mod shelf;
