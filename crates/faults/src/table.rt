// The table of the fault layer: at most 32 rows, in order of arrival, so that the earliest plan for a place is
// the first row that fits.
ghost use Rattle.std.specs.Prelude.{◌≡◌, ◌<◌, ◌≤◌, [], length};
ghost use Rattle.std.specs.List.{remove};
ghost use Rattle.faults.specs.Rows.{plan_for, marked, turned_at, unmarked, added, add_answer, planned_rows, rows_by};

use crate::rows::{Plan, Row};
use arrayvec::ArrayVec;
use block::{Place, Refusal};

// A plan and the index of its row.
#[derive(Clone, Copy)]
pub struct Found {
    pub index: usize,
    pub plan: Plan,
}

#[derive(Drop)]
pub struct Table {
    rows: ArrayVec<Row, 32>,
}

impl Table {
    // A table with no row in use.
    pub fn empty() -> Table
        ensures { result.rows.items ≡ [] }
    {
        Table {
            rows: ArrayVec::new(),
        }
    }

    // How many rows are in use.
    pub fn count(&self) -> usize
        ensures value { result ≡ length self.now.rows.items }
        ensures most { result ≤ 32 }
    {
        self.rows.len()
    }

    // The earliest plan for the place.
    pub fn plan_for(&self, place: Place) -> Option<Found>
        ensures { result ≡ plan_for place.slot place.block self.now.rows.items }
    {
        self.rows.iter().enumerate().find_map(|(index, row)| {
            row.plan_at(place).map(|plan| Found { index, plan })
        })
    }

    // There is a mark on the place.
    pub fn is_marked(&self, place: Place) -> bool
        ensures { result ≡ marked place.slot place.block self.now.rows.items }
    {
        self.rows.iter().any(|row| row.is_mark(place))
    }

    // One more row, unless 32 are in use.
    pub fn add(&mut self, row: Row) -> Result<(), Refusal>
        ensures answer { result ≡ add_answer tt self.old.rows.items }
        ensures rows { self.new.rows.items ≡ added self.old.rows.items row }
    {
        self.rows.try_push(row).map_err(|_| Refusal::TableFull)
    }

    // Frees a row: the later ones move down by one.
    pub fn free(&mut self, index: usize)
        requires { index < length self.old.rows.items }
        ensures { self.new.rows.items ≡ remove self.old.rows.items index }
    {
        self.rows.remove(index);
    }

    // Turns a plan into a mark on its place, where it is.
    pub fn turn(&mut self, index: usize)
        requires { index < length self.old.rows.items }
        ensures { self.new.rows.items ≡ turned_at self.old.rows.items index }
    {
        let row = &mut self.rows.as_mut_slice()[index];
        *row = row.turned();
    }

    // Frees the row of every mark on the place. Most writes meet no mark, and then no row is moved.
    pub fn unmark(&mut self, place: Place)
        ensures { self.new.rows.items ≡ unmarked place.slot place.block self.old.rows.items }
    {
        if self.is_marked(place) {
            self.rows.retain(|row| !row.is_mark(place));
        }
    }

    // Uses up a plan for the place: its row is freed, or turned into a mark by a spoil where there is none.
    // A stray also frees the mark on the block that it goes to.
    pub fn use_up(&mut self, found: Found, place: Place)
        requires { found.index < length self.old.rows.items }
        ensures { self.new.rows.items ≡ planned_rows self.old.rows.items place.slot place.block found.index found.plan }
    {
        match found.plan {
            Plan::Spoil if !self.is_marked(place) => self.turn(found.index),
            Plan::Lose | Plan::Tear(_) | Plan::Spoil => self.free(found.index),
            Plan::Stray(target) => {
                self.free(found.index);
                self.unmark(Place {
                    block: target,
                    ..place
                });
            }
        }
    }

    // The rows after a write to the place: the plan is used up, or the mark freed where there is no plan.
    pub fn pass(&mut self, found: Option<Found>, place: Place)
        requires { found ≡ plan_for place.slot place.block self.old.rows.items }
        ensures { self.new.rows.items ≡ rows_by self.old.rows.items place.slot place.block found }
    {
        match found {
            Some(planned) => self.use_up(planned, place),
            None => self.unmark(place),
        }
    }
}
