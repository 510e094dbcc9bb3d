//! Tests of `tool_commands`, `tool_script`, `tool_watch` and `tool_program`, over their public items alone, and of texts and
//! streams that are cut, damaged or failing at each place in turn.
#![tactic(auto)]

#[cfg(test)]
mod checks;
#[cfg(test)]
mod programs;
#[cfg(test)]
mod refusals;
#[cfg(test)]
mod samples;
#[cfg(test)]
mod sessions;
#[cfg(test)]
mod streams;
#[cfg(test)]
mod texts;
#[cfg(test)]
mod threads;
#[cfg(test)]
mod watching;
