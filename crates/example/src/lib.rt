// A worked example: a checksum and a shelf of its own under the array. docs/EXTENDING.md goes through it.
#![tactic(auto)]

mod counted;
mod formats;
mod plain;
#[cfg(test)]
mod tests;

pub use counted::Counted;
pub use formats::format_counted;
pub use plain::PlainSum;
