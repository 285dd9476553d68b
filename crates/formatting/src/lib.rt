// The writes of a format, and the law over the runs that follow them.
#![tactic(auto)]

mod formatting;

pub use formatting::format_cards;
