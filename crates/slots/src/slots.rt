// A slot event, judged together with the slot's state.
ghost use Rattle.std.specs.Prelude.{◌≡◌, ◌+◌, ◌≤◌};
ghost use Rattle.stripe.specs.View.{slots_in};
ghost use Rattle.runs.specs.Slots.{is_in, all_in_below, next_state, allowed, slots_by, answered};

use block::{Frame, Refusal};
use runs::Event;
use stripe::SlotState;

fn is_in(state: SlotState) -> bool
    ensures { result ≡ is_in state }
{
    matches!(state, SlotState::In)
}

// Each of the first slots is in.
fn all_in_below(states: &[SlotState; 8], cards: u32) -> bool
    requires { cards ≤ 8 }
    ensures { result ≡ all_in_below cards (slots_in states.now) }
{
    let mut all = true;
    for state in &states[..cards as usize] {
        all = is_in(*state) && all;
    }
    all
}

// An event of a slot, judged together with the slot's state: pull, fit, finish and give-up; all else is refused.
pub fn turn_slot(
    states: &mut [SlotState; 8],
    frame: Frame,
    slot: u32,
    event: Event,
) -> Result<(), Refusal>
    requires { slot ≤ frame.width }
    ensures answer { result ≡ answered tt (allowed (next_state (all_in_below (frame.width + 1) (slots_in states.old)) frame.blocks (slots_in states.old slot) event)) }
    ensures slots { slots_in states.new ≡ slots_by (slots_in states.old) slot (allowed (next_state (all_in_below (frame.width + 1) (slots_in states.old)) frame.blocks (slots_in states.old slot) event)) }
{
    let all = all_in_below(states, frame.width + 1);
    let c = slot as usize;
    let next = match (states[c], event) {
        (SlotState::In, Event::Pull) if all => SlotState::Out,
        (SlotState::Out, Event::Fit) => SlotState::Filling(0),
        (SlotState::Filling(n), Event::Finish) if n == frame.blocks => SlotState::In,
        (SlotState::Filling(_), Event::GiveUp) => SlotState::Out,
        _ => return Err(Refusal::SlotState),
    };
    states[c] = next;
    Ok(())
}
