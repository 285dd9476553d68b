// What stays fixed of an array.
ghost use Rattle.std.specs.Prelude.{◌^◌, ◌<◌, ◌≤◌};

// The data blocks of a stripe (the cards but one), the blocks of a card, and the array's tag.
#[derive(Clone, Copy)]
pub struct Frame {
    pub width: u32,
    pub blocks: u32,
    pub tag: u32,
    ghost least: { 2 ≤ width },
    ghost most: { width ≤ 7 },
    ghost some: { 1 ≤ blocks },
    ghost many: { blocks ≤ 65536 },
    ghost tagged: { 1 ≤ tag },
    ghost narrow: { tag < 2 ^ 32 },
}
