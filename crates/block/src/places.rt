// Where the blocks of a stripe lie, and where an address lies.
ghost use Rattle.std.specs.Prelude.{◌≡◌, ℕ, ◌+◌, ◌-◌, ◌*◌, ◌/◌, ◌%◌, ◌<◌, ◌≤◌, true, false, Some, Ok, Err, MatchResult};
ghost use Rattle.block.specs.Places.{in_range, parity_slot, slot_of, role_at, position_of, position_at, place_of, address_by, address_of, Within};

use crate::frame::Frame;
use crate::refusal::Refusal;
use crate::shapes::{Place, Position, Role};
use crate::spot::{DataSpot, Spot};

impl Frame {
    // The frame of an array of so many cards with so many blocks each, under a tag.
    pub fn new(cards: u32, blocks: u32, tag: u32) -> Result<Frame, Refusal>
        ensures { MatchResult result (λ f. (in_range cards blocks tag ≡ true) × (f.width + 1 ≡ cards) × (f.blocks ≡ blocks) × (f.tag ≡ tag)) (λ e. (in_range cards blocks tag ≡ false) × (e ≡ Refusal.Shape)) }
    {
        if 3 <= cards && cards <= 8 && 1 <= blocks && blocks <= 65536 && 1 <= tag {
            Ok(Frame {
                width: cards - 1,
                blocks,
                tag,
            })
        } else {
            Err(Refusal::Shape)
        }
    }

    // The slot of a stripe's parity block.
    pub fn parity_slot(self, stripe: u32) -> u32
        ensures { result ≡ parity_slot self.width stripe }
    {
        self.width - stripe % (self.width + 1)
    }

    // The stripe and the data index of an address.
    pub fn position(self, address: u32) -> Result<Position, Refusal>
        ensures is { result ≡ position_of self.width self.blocks address }
        ensures within { Within self.width self.blocks result }
    {
        if address < self.width * self.blocks {
            Ok(Position {
                stripe: address / self.width,
                index: address % self.width,
            })
        } else {
            Err(Refusal::Address)
        }
    }

    // The data block of an address.
    pub fn data_spot(self, address: u32) -> Result<DataSpot, Refusal>
        ensures { MatchResult result (λ d. (position_of self.width self.blocks address ≡ Ok (position_at d.stripe d.index)) × (d.frame ≡ self) × (d.stripe < self.blocks)) (λ e. position_of self.width self.blocks address ≡ Err e) }
    {
        let position = self.position(address)?;
        Ok(DataSpot {
            frame: self,
            stripe: position.stripe,
            index: position.index,
        })
    }

    // The place of an address, whose address is that address again.
    pub fn place(self, address: u32) -> Result<Place, Refusal>
        ensures is { result ≡ place_of self.width self.blocks address }
        ensures back { (p : Place) → result ≡ Ok p → address_of self.width self.blocks p.slot p.block ≡ Ok (Some address) }
    {
        let at = self.data_spot(address)?;
        Ok(Place {
            slot: at.data().slot(),
            block: at.stripe,
        })
    }

    // The address of a place; a parity block has none.
    pub fn address(self, place: Place) -> Result<Option<u32>, Refusal>
        ensures is { result ≡ address_of self.width self.blocks place.slot place.block }
    {
        if place.slot <= self.width && place.block < self.blocks {
            Ok(self.spot_at(place.block, place.slot).address())
        } else {
            Err(Refusal::Place)
        }
    }

    // The block of a stripe that lies in a slot.
    pub fn role_at(self, stripe: u32, slot: u32) -> Role
        ensures is { result ≡ role_at self.width stripe slot }
        ensures placed { slot ≤ self.width → (j : ℕ) → result ≡ Role.Data j → j < self.width }
    {
        let parity = self.parity_slot(stripe);
        if slot == parity {
            Role::Parity
        } else if slot < parity {
            Role::Data(slot)
        } else {
            Role::Data(slot - 1)
        }
    }

    // The same of a slot that the array has.
    pub fn spot_at(self, stripe: u32, slot: u32) -> Spot
        requires { slot ≤ self.width }
        ensures frame { result.frame ≡ self }
        ensures stripe { result.stripe ≡ stripe }
        ensures role { result.role ≡ role_at self.width stripe slot }
    {
        Spot {
            frame: self,
            stripe,
            role: self.role_at(stripe, slot),
        }
    }
}

impl DataSpot {
    // The data block itself.
    pub fn data(self) -> Spot
        ensures frame { result.frame ≡ self.frame }
        ensures stripe { result.stripe ≡ self.stripe }
        ensures role { result.role ≡ Role.Data self.index }
    {
        Spot {
            frame: self.frame,
            stripe: self.stripe,
            role: Role::Data(self.index),
        }
    }

    // The parity block of its stripe.
    pub fn parity(self) -> Spot
        ensures frame { result.frame ≡ self.frame }
        ensures stripe { result.stripe ≡ self.stripe }
        ensures role { result.role ≡ Role.Parity }
    {
        Spot {
            frame: self.frame,
            stripe: self.stripe,
            role: Role::Parity,
        }
    }
}

impl Spot {
    // The address, of a stripe that the array has.
    fn address(self) -> Option<u32>
        requires { self.stripe < self.frame.blocks }
        ensures { result ≡ address_by self.frame.width self.stripe self.role }
    {
        match self.role {
            Role::Parity => None,
            Role::Data(j) => Some(self.stripe * self.frame.width + j),
        }
    }

    // The slot in which the block lies.
    pub fn slot(self) -> u32
        ensures is { result ≡ slot_of self.frame.width self.stripe self.role }
        ensures below { result ≤ self.frame.width }
    {
        let parity = self.frame.parity_slot(self.stripe);
        match self.role {
            Role::Parity => parity,
            Role::Data(j) => if j < parity { j } else { j + 1 },
        }
    }
}
