// The definitions of the calls, the plain book, and the law over runs.
#![tactic(auto)]

mod law;
mod shapes;

pub use law::{
    behind_stays, law_holds, law_speaks, rebuild_is_steps, same_parity, scrub_is_steps,
    scrub_mends, witness_run, write_lands,
};
pub use shapes::{
    Event, Gathered, LookAnswer, Obtained, Patch, ReadAnswer, RebuildCounts, ScrubCounts, Source,
    Swept, Switch, Way, WriteAnswer,
};
