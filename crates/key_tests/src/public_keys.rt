mod callers;
mod documents;
mod errors;
mod files;
mod identifiers;
