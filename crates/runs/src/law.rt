// The law over runs and its companions, each the contract of a function.
ghost use Rattle.runs.specs.Law.{RunLaw};
ghost use Rattle.runs.specs.Companions.{ScrubMends, WriteLands, SameParity, BehindStays, ScrubIsSteps, RebuildIsSteps};
ghost use Rattle.runs.specs.Witness.{LawSpeaks, WitnessRun};

// The law over runs holds, from any shelf and any book.
pub fn law_holds()
    ensures { RunLaw }
{}

// A scrub mends a stripe's only bad block.
pub fn scrub_mends()
    ensures { ScrubMends }
{}

// The blocks of an accepted write are good afterwards.
pub fn write_lands()
    ensures { WriteLands }
{}

// Both ways of a write make the same parity in a stripe of good blocks.
pub fn same_parity()
    ensures { SameParity }
{}

// Parity behind at another index stays behind after a quick write.
pub fn behind_stays()
    ensures { BehindStays }
{}

// A scrub of many stripes is a chain of steps.
pub fn scrub_is_steps()
    ensures { ScrubIsSteps }
{}

// A rebuild of many stripes is a chain of steps.
pub fn rebuild_is_steps()
    ensures { RebuildIsSteps }
{}

// Orderly runs exist: over a good shelf, every list of reads, writes, looks and scrubs is one.
pub fn law_speaks()
    ensures { LawSpeaks }
{}

// A run in which a card loses a write, a read is given rebuilt, and a later read says lost.
pub fn witness_run()
    ensures { WitnessRun }
{}
