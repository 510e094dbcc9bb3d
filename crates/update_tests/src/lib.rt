//! Tests of `update_document` and of `identity_update`, over their public items alone.
#![tactic(auto)]

#[cfg(test)]
mod checks;
#[cfg(test)]
mod documents;
#[cfg(test)]
mod lists;
#[cfg(test)]
mod updates;
