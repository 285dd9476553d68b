// Sequences on the fault layer: rows that are used again, marks, and a full table.
use crate::bench::cell_at;
use block::Refusal;
use faults::{FaultLayer, Plan};
use image::Image;
use shelf::WritableShelf;
use std::test::Fail;

fn bench(rt: &HostRuntime) -> Result<FaultLayer<Image>, Fail> {
    Ok(FaultLayer::over(Image::zero(rt.alloc(), 3, 3)?))
}

// The byte at an index of a place, or none where the place is blind.
fn byte_at(layer: &FaultLayer<Image>, slot: u32, block: u32, index: usize) -> Option<u8> {
    let bytes = cell_at(layer, slot, block)?;
    bytes.get(index).copied()
}

// Lose on X, tear on Y, a write to X, lose on Y: a write to Y tears, since that plan came first.
#[test]
fn earliest_plan_after_rows_moved(rt: HostRuntime) -> Result<(), Fail> {
    let mut layer = bench(&rt)?;
    layer.lay(0, 0, Plan::Lose)?;
    layer.lay(0, 1, Plan::Tear(5))?;
    layer.write(0, 0, &[7; 128])?;
    layer.lay(0, 1, Plan::Lose)?;
    layer.write(0, 1, &[9; 128])?;
    assert_eq!(rt; byte_at(&layer, 0, 0, 0), Some(0));
    assert_eq!(rt; byte_at(&layer, 0, 1, 4), Some(9));
    assert_eq!(rt; byte_at(&layer, 0, 1, 5), Some(0));
    assert_eq!(rt; layer.rows_used(), 1);
    Ok(())
}

#[test]
fn spoil_on_a_marked_place_leaves_one_mark(rt: HostRuntime) -> Result<(), Fail> {
    let mut layer = bench(&rt)?;
    layer.blind(1, 2)?;
    layer.lay(1, 2, Plan::Spoil)?;
    assert_eq!(rt; layer.rows_used(), 2);
    layer.write(1, 2, &[7; 128])?;
    assert_eq!(rt; layer.rows_used(), 1);
    assert_eq!(rt; byte_at(&layer, 1, 2, 0), None);
    Ok(())
}

#[test]
fn stray_clears_the_targets_mark(rt: HostRuntime) -> Result<(), Fail> {
    let mut layer = bench(&rt)?;
    layer.blind(2, 1)?;
    layer.lay(2, 0, Plan::Stray(1))?;
    layer.write(2, 0, &[7; 128])?;
    assert_eq!(rt; byte_at(&layer, 2, 1, 0), Some(7));
    assert_eq!(rt; byte_at(&layer, 2, 0, 0), Some(0));
    assert_eq!(rt; layer.rows_used(), 0);
    Ok(())
}

#[test]
fn tear_on_a_blind_place_leaves_it_blind(rt: HostRuntime) -> Result<(), Fail> {
    let mut layer = bench(&rt)?;
    layer.blind(0, 0)?;
    layer.lay(0, 0, Plan::Tear(5))?;
    layer.write(0, 0, &[7; 128])?;
    assert_eq!(rt; byte_at(&layer, 0, 0, 0), None);
    assert_eq!(rt; layer.rows_used(), 1);
    Ok(())
}

#[test]
fn table_of_32_fills_and_is_freed(rt: HostRuntime) -> Result<(), Fail> {
    let mut layer = bench(&rt)?;
    layer.blind(1, 1)?;
    for _ in 0..31u32 {
        layer.lay(0, 0, Plan::Lose)?;
    }
    assert_eq!(rt; layer.lay(0, 0, Plan::Lose), Err(Refusal::TableFull));
    assert_eq!(rt; layer.blind(0, 1), Err(Refusal::TableFull));
    assert_eq!(rt; layer.blind(1, 1), Ok(()));
    assert_eq!(rt; layer.lay(0, 0, Plan::Tear(128)), Err(Refusal::Place));
    layer.write(0, 0, &[7; 128])?;
    assert_eq!(rt; layer.rows_used(), 31);
    assert_eq!(rt; layer.lay(0, 0, Plan::Lose), Ok(()));
    Ok(())
}

#[test]
fn refused_write_uses_no_plan(rt: HostRuntime) -> Result<(), Fail> {
    let mut layer = bench(&rt)?;
    layer.lay(0, 0, Plan::Lose)?;
    assert_eq!(rt; layer.write(0, 0, &[7; 127]), Err(Refusal::Length));
    assert_eq!(rt; layer.write(3, 0, &[7; 128]), Err(Refusal::Place));
    assert_eq!(rt; layer.rows_used(), 1);
    Ok(())
}
