// The rows of the fault table.
ghost use Rattle.std.specs.Prelude.{◌≡◌};
ghost use Rattle.faults.specs.Faults.{plan_fits};
ghost use Rattle.faults.specs.Rows.{is_mark, plan_at, turned_row};

use block::Place;

// What becomes of a write.
#[derive(Clone, Copy, PartialEq, Eq, Debug)]
pub enum Plan {
    // Nothing is written.
    Lose,
    // So many bytes from the start are written, the rest stays.
    Tear(u32),
    // Nothing is written, and the place is blind from then on.
    Spoil,
    // The block is written to another block of the card.
    Stray(u32),
}

impl Plan {
    // It may be laid for the block, of a card with so many blocks.
    pub fn fits(self, block: u32, blocks: u32) -> bool
        ensures { result ≡ plan_fits blocks block self }
    {
        match self {
            Plan::Lose | Plan::Spoil => true,
            Plan::Tear(length) => (1..=127).contains(&length),
            Plan::Stray(target) => target < blocks && target != block,
        }
    }
}

// A row in use: a blind mark on a place, or a plan for a write to a place.
#[derive(Clone, Copy, PartialEq, Eq, Debug)]
pub enum Row {
    Mark(Place),
    Planned(Place, Plan),
}

// What stands in the table where no row is in use.
impl Default for Row {
    fn default() -> Row {
        Row::Mark(Place { slot: 0, block: 0 })
    }
}

impl Row {
    // It is a mark on the place.
    pub fn is_mark(self, place: Place) -> bool
        ensures { result ≡ is_mark place.slot place.block self }
    {
        matches!(self, Row::Mark(at) if at == place)
    }

    // Its plan, if it is one for the place.
    pub fn plan_at(self, place: Place) -> Option<Plan>
        ensures { result ≡ plan_at place.slot place.block self }
    {
        match self {
            Row::Planned(at, plan) if at == place => Some(plan),
            _ => None,
        }
    }

    // A plan turned into a mark on its place.
    pub fn turned(self) -> Row
        ensures { result ≡ turned_row self }
    {
        match self {
            Row::Mark(place) | Row::Planned(place, _) => Row::Mark(place),
        }
    }
}
