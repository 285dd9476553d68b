// Refusals where there is no array yet, or none is needed: an image, a shelf's own read and write, a survey, format and
// open, and show. What was handed in is as before.
use crate::bench::{WHOLE, after, bytes_at, bytes_of, cells, image_with};
use array::{Array, show};
use block::{HandedBack, Refusal};
use checksum::Fletcher;
use faults::FaultLayer;
use image::{Image, ImageView, MakeError};
use runs::Source;
use shelf::{ReadableShelf, WritableShelf};
use std::process::Abort;
use std::test::Fail;
use stripe::survey;

// A shelf's read or write of a buffer of a length.
#[derive(Clone, Copy)]
struct Named {
    length: usize,
    slot: u32,
    block: u32,
    refusal: Refusal,
}

fn named_place(length: usize, slot: u32, block: u32, refusal: Refusal) -> Named {
    Named {
        length,
        slot,
        block,
        refusal,
    }
}

// Places and lengths of three cards with two blocks each that are refused.
fn named_cases() -> [Named; 11] {
    [
        // Another length.
        named_place(0, 0, 0, Refusal::Length),
        named_place(127, 0, 0, Refusal::Length),
        named_place(129, 2, 1, Refusal::Length),
        // No such place.
        named_place(128, 3, 0, Refusal::Place),
        named_place(128, 0, 2, Refusal::Place),
        named_place(128, 4294967295, 0, Refusal::Place),
        named_place(128, 0, 4294967295, Refusal::Place),
        // 1 and 4.
        named_place(127, 3, 0, Refusal::Length),
        named_place(129, 0, 2, Refusal::Length),
        named_place(0, 3, 2, Refusal::Length),
        named_place(129, 4294967295, 4294967295, Refusal::Length),
    ]
}

fn reads_refused<R: ReadableShelf>(rt: &impl Abort, shelf: &R) -> Result<(), Fail> {
    let mut bytes = [6u8; 129];
    for case in &named_cases() {
        let part = bytes.get_mut(..case.length).ok_or("too long")?;
        let refusal = shelf.read(case.slot, case.block, part).err();
        assert_eq!(rt; refusal, Some(case.refusal));
        assert!(rt; bytes == [6; 129]);
    }
    Ok(())
}

fn writes_refused<W: WritableShelf>(rt: &impl Abort, shelf: &mut W) -> Result<(), Fail> {
    let before = cells(shelf);
    for case in &named_cases() {
        let part = [6u8; 129];
        let refusal = shelf
            .write(
                case.slot,
                case.block,
                part.get(..case.length).ok_or("too long")?,
            )
            .err();
        assert_eq!(rt; refusal, Some(case.refusal));
        assert!(rt; cells(shelf) == before);
    }
    Ok(())
}

#[test]
fn reads_and_writes_of_an_image(rt: HostRuntime) -> Result<(), Fail> {
    let bytes = bytes_at(rt.alloc(), after(WHOLE))?;
    let mut image = image_with(rt.alloc(), &bytes)?;
    reads_refused(&rt, &image)?;
    reads_refused(&rt, &image.view())?;
    writes_refused(&rt, &mut image)?;
    assert!(rt; bytes_of(image)? == bytes);
    Ok(())
}

#[test]
fn reads_and_writes_of_a_fault_layer(rt: HostRuntime) -> Result<(), Fail> {
    let bytes = bytes_at(rt.alloc(), after(WHOLE))?;
    let mut layer = FaultLayer::over(image_with(rt.alloc(), &bytes)?);
    layer.blind(0, 0)?;
    layer.blind(2, 1)?;
    reads_refused(&rt, &layer)?;
    writes_refused(&rt, &mut layer)?;
    assert_eq!(rt; layer.rows_used(), 2);
    assert!(rt; bytes_of(layer.into_inner())? == bytes);
    Ok(())
}

fn survey_refused(
    rt: &impl Abort,
    image: &Image,
    tag: u32,
    length: usize,
    refusal: Refusal,
) -> Result<(), Fail> {
    let mut masks = [9u8; 3];
    let part = masks.get_mut(..length).ok_or("too long")?;
    assert_eq!(rt; survey::<Image, Fletcher>(image, tag, part), Err(refusal));
    assert!(rt; masks == [9; 3]);
    Ok(())
}

#[test]
fn surveys_refused(rt: HostRuntime) -> Result<(), Fail> {
    let bytes = bytes_at(rt.alloc(), after(WHOLE))?;
    let image = image_with(rt.alloc(), &bytes)?;
    for length in [0, 1, 3] {
        survey_refused(&rt, &image, 9, length, Refusal::Length)?;
        // 1 and 2.
        survey_refused(&rt, &image, 0, length, Refusal::Length)?;
    }
    survey_refused(&rt, &image, 0, 2, Refusal::Shape)?;
    assert!(rt; bytes_of(image)? == bytes);
    Ok(())
}

// Tag 0: the shelf is handed back as it was.
fn handed_back(
    rt: &impl Abort,
    made: Result<Array<Image, Fletcher>, HandedBack<Image>>,
    bytes: &[u8; 774],
) -> Result<(), Fail> {
    match made {
        Ok(array) => {
            let _ = array.close();
            Err(Fail::new("made"))
        }
        Err(
            HandedBack {
                refusal,
                value: image,
            },
        ) => {
            assert_eq!(rt; refusal, Refusal::Shape);
            assert!(rt; bytes_of(image)? == *bytes);
            Ok(())
        }
    }
}

#[test]
fn format_and_open_with_tag_0(rt: HostRuntime) -> Result<(), Fail> {
    let bytes = bytes_at(rt.alloc(), after(WHOLE))?;
    let formatted = Array::format(image_with(rt.alloc(), &bytes)?, 0);
    handed_back(&rt, formatted, &bytes)?;
    let opened = Array::open(image_with(rt.alloc(), &bytes)?, 0);
    handed_back(&rt, opened, &bytes)
}

// An image of a length whose last flag is as told.
#[derive(Clone, Copy)]
struct Opened {
    cards: u32,
    blocks: u32,
    length: usize,
    flag: u8,
    refusal: Refusal,
}

fn opened_image(cards: u32, blocks: u32, length: usize, flag: u8, refusal: Refusal) -> Opened {
    Opened {
        cards,
        blocks,
        length,
        flag,
        refusal,
    }
}

fn opened_cases() -> [Opened; 16] {
    [
        // No such numbers of cards and blocks.
        opened_image(2, 2, 516, 0, Refusal::Shape),
        opened_image(0, 2, 0, 0, Refusal::Shape),
        opened_image(3, 0, 0, 0, Refusal::Shape),
        opened_image(9, 1, 1161, 0, Refusal::Shape),
        // Another length.
        opened_image(3, 2, 773, 0, Refusal::Length),
        opened_image(3, 2, 775, 0, Refusal::Length),
        opened_image(3, 2, 0, 0, Refusal::Length),
        // A flag above 1.
        opened_image(3, 2, 774, 2, Refusal::Length),
        opened_image(3, 2, 774, 255, Refusal::Length),
        // 2 and 1, by the length.
        opened_image(2, 2, 774, 0, Refusal::Shape),
        opened_image(9, 1, 1160, 0, Refusal::Shape),
        opened_image(3, 0, 1, 0, Refusal::Shape),
        opened_image(3, 65537, 774, 0, Refusal::Shape),
        opened_image(4294967295, 4294967295, 774, 0, Refusal::Shape),
        // 2 and 1, by a flag.
        opened_image(2, 2, 516, 2, Refusal::Shape),
        opened_image(9, 1, 1161, 2, Refusal::Shape),
    ]
}

fn open_refused(rt: &HostRuntime, case: Opened) -> Result<Option<Refusal>, Fail> {
    let mut bytes = [0u8; 1161];
    let part = bytes.get_mut(..case.length).ok_or("too long")?;
    if let Some(last) = part.last_mut() {
        *last = case.flag;
    }
    if ImageView::open(case.cards, case.blocks, part).err() != Some(case.refusal) {
        return Ok(None);
    }
    match Image::open(case.cards, case.blocks, part.to_vec(rt.alloc())?) {
        Ok(_) => Ok(None),
        Err(back) => if back.value.as_slice() == &*part {
            Ok(Some(back.refusal))
        } else {
            Ok(None)
        },
    }
}

// The bytes are handed back as they were.
#[test]
fn images_refused(rt: HostRuntime) -> Result<(), Fail> {
    for case in &opened_cases() {
        assert_eq!(rt; open_refused(&rt, *case)?, Some(case.refusal));
    }
    Ok(())
}

// 3 cards with 65,537 blocks each: the bytes are as many as their places would take.
#[test]
fn an_image_of_too_many_blocks(rt: HostRuntime) -> Result<(), Fail> {
    let bytes = vec![in rt.alloc(); 0u8; 25362819]?;
    assert_eq!(rt;
        ImageView::open(3, 65537, bytes.as_slice()).err(),
        Some(Refusal::Shape)
    );
    let opened = Image::open(3, 65537, bytes);
    assert!(rt;
        matches!(
            opened,
            Err(HandedBack {
                refusal: Refusal::Shape,
                ..
            })
        )
    );
    Ok(())
}

#[test]
fn images_not_made(rt: HostRuntime) {
    for (cards, blocks) in [
        (2, 2),
        (9, 2),
        (3, 0),
        (3, 65537),
        (0, 0),
        (4294967295, 4294967295),
    ] {
        let made = Image::zero(rt.alloc(), cards, blocks);
        assert!(rt; matches!(made, Err(MakeError::Refused(Refusal::Shape))));
    }
}

#[test]
fn shows_refused(rt: HostRuntime) {
    let short = [1u8; 127];
    let whole = [2u8; 128];
    let long = [3u8; 129];
    for source in [Source::Found, Source::Rebuilt] {
        assert!(rt; matches!(show(source, &short, &whole), Err(Refusal::Length)));
        assert!(rt; matches!(show(source, &whole, &short), Err(Refusal::Length)));
        assert!(rt; matches!(show(source, &long, &whole), Err(Refusal::Length)));
        assert!(rt; matches!(show(source, &whole, &long), Err(Refusal::Length)));
        assert!(rt; matches!(show(source, &short, &long), Err(Refusal::Length)));
    }
}
