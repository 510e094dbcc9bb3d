mod attributes;
mod callers;
mod documents;
mod errors;
mod files;
mod grammar;
mod shown;
