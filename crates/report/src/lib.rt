// Reports of what is found on a shelf, stripe by stripe and card by card.
#![tactic(auto)]

mod shapes;
mod shelves;
mod stripes;
mod text;
mod totals;

pub use shapes::{Advice, CardTotals, StripeReport, StripeTotals};
pub use shelves::print_report;
pub use stripes::report_stripe;
pub use totals::letter;
