// The checksum and the layer at work under the array, on three cards with two blocks each.
use crate::counted::Counted;
use crate::formats::format_counted;
use crate::plain::PlainSum;
use array::{Array, show};
use block::Refusal;
use checksum::Checksum;
use image::Image;
use runs::{Switch, Way};
use shelf::{ReadableShelf, WritableShelf};
use std::process::Abort;
use std::test::Fail;
use stripe::Finding;

// One record is written, and read back as it was found.
fn write_and_read(
    rt: &impl Abort,
    array: &mut Array<Counted<Image>, PlainSum>,
) -> Result<(), Fail> {
    let mut findings = [Finding::default(); 8];
    array.write(1, 5, &[7; 80], Way::Subtractive, &mut findings)?;
    let mut found = [0u8; 128];
    let mut rebuilt = [0u8; 128];
    let switch = Switch { mending: true };
    let answer = array.read(1, 5, &switch, &mut found, &mut rebuilt, &mut findings)?;
    let payload = show(answer.source, &found, &rebuilt)?;
    assert!(rt; payload == [7u8; 80].as_slice());
    assert!(rt; found[81] == 3);
    Ok(())
}

#[test]
fn counts_what_the_array_writes(rt: HostRuntime) -> Result<(), Fail> {
    let Ok(mut array) = format_counted(Image::zero(rt.alloc(), 3, 2)?, 9) else {
        return Err(Fail::new("no array"));
    };
    let told = write_and_read(&rt, &mut array);
    let shelf = array.close();
    told?;
    assert_eq!(rt; shelf.count(), 3 * 2 + 2);
    Ok(())
}

#[test]
fn counts_no_refused_write(rt: HostRuntime) -> Result<(), Fail> {
    let mut shelf = Counted::over(Image::zero(rt.alloc(), 3, 2)?);
    assert!(rt; matches!(shelf.write(0, 0, &[1; 127]), Err(Refusal::Length)));
    assert!(rt; matches!(shelf.write(3, 0, &[1; 128]), Err(Refusal::Place)));
    assert_eq!(rt; shelf.count(), 0);
    shelf.write(2, 1, &[1; 128])?;
    assert_eq!(rt; shelf.count(), 1);
    Ok(())
}

#[test]
fn sums_by_exclusive_or(rt: HostRuntime) {
    let mut block = [0u8; 128];
    block[3] = 5;
    block[7] = 6;
    block[127] = 9;
    assert_eq!(rt; PlainSum::sum(&block), 3);
}
