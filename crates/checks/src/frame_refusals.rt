// Refusals of the calls that take no array: a frame, the places of its addresses, and the report of one stripe.
use block::{Frame, Place, Refusal};
use checksum::Fletcher;
use image::Image;
use report::report_stripe;
use std::test::Fail;

#[test]
fn frames_out_of_range(rt: HostRuntime) -> Result<(), Fail> {
    let shapes = [
        (2, 1, 9),
        (9, 1, 9),
        (4294967295, 1, 9),
        (3, 0, 9),
        (3, 65537, 9),
        (3, 1, 0),
        (2, 0, 0),
    ];
    for (cards, blocks, tag) in shapes {
        assert_eq!(rt; Frame::new(cards, blocks, tag).err(), Some(Refusal::Shape));
    }
    Ok(())
}

#[test]
fn addresses_beyond_a_frame(rt: HostRuntime) -> Result<(), Fail> {
    let frame = Frame::new(5, 10, 9)?;
    assert_eq!(rt; frame.place(39)?, Place { slot: 4, block: 9 });
    for address in [40, 41, 4294967295] {
        assert_eq!(rt; frame.position(address).err(), Some(Refusal::Address));
        assert_eq!(rt; frame.data_spot(address).err(), Some(Refusal::Address));
        assert_eq!(rt; frame.place(address).err(), Some(Refusal::Address));
    }
    Ok(())
}

#[test]
fn places_beyond_a_frame(rt: HostRuntime) -> Result<(), Fail> {
    let frame = Frame::new(5, 10, 9)?;
    for (slot, block) in [(5, 0), (0, 10), (5, 10), (4294967295, 4294967295)] {
        assert_eq!(rt;
            frame.address(Place { slot, block }).err(),
            Some(Refusal::Place)
        );
    }
    Ok(())
}

// A tag of 0 is refused before a stripe that the shelf has not.
#[test]
fn reports_of_no_stripe(rt: HostRuntime) -> Result<(), Fail> {
    let image = Image::zero(rt.alloc(), 3, 2)?;
    for stripe in [0, 2, 4294967295] {
        let report = report_stripe::<_, Fletcher>(&image, 0, stripe);
        assert_eq!(rt; report.err(), Some(Refusal::Shape));
    }
    for stripe in [2, 3, 4294967295] {
        let report = report_stripe::<_, Fletcher>(&image, 9, stripe);
        assert_eq!(rt; report.err(), Some(Refusal::Place));
    }
    Ok(())
}
