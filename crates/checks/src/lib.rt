// Tests of what no contract says: sequences of calls on examples.
#![tactic(auto)]

#[cfg(test)]
mod array_calls;
#[cfg(test)]
mod bench;
#[cfg(test)]
mod fault_layer;
#[cfg(test)]
mod frame_refusals;
#[cfg(test)]
mod mutants;
#[cfg(test)]
mod other_refusals;
#[cfg(test)]
mod read_write_refusals;
#[cfg(test)]
mod shelf_refusals;
