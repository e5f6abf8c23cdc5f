// What a bus and a cube answer.
use crate::figures::{LARGEST, SMALL};
use machine::{Bus, Cube, Machine, cube_example};
use std::test::Fail;

#[test]
fn the_example_runs(rt: HostRuntime) {
    assert_eq!(rt; cube_example(), Ok((6, 11)));
}

#[test]
fn a_bus_has_one_delay(rt: HostRuntime) -> Result<(), Fail> {
    let bus = Bus::new(3, SMALL)?;
    assert_eq!(rt; bus.processors(), 3);
    assert_eq!(rt; bus.delay(0, 1, 4), Ok(5));
    assert_eq!(rt; bus.delay(2, 0, 4), Ok(5));
    assert_eq!(rt; bus.delay(1, 1, 4), Ok(0));
    assert_eq!(rt; bus.delay(0, 1, 0), Ok(1));
    assert_eq!(rt; bus.startup(), 3);
    assert_eq!(rt; bus.reading(10), Ok(54));
    assert_eq!(rt; bus.writing(10), Ok(76));
    Ok(())
}

#[test]
fn a_cube_counts_differing_bits(rt: HostRuntime) -> Result<(), Fail> {
    let cube = Cube::new(4, SMALL)?;
    assert_eq!(rt; cube.processors(), 4);
    assert_eq!(rt; cube.delay(0, 3, 2), Ok(6));
    assert_eq!(rt; cube.delay(1, 3, 2), Ok(3));
    assert_eq!(rt; cube.delay(1, 2, 2), Ok(6));
    assert_eq!(rt; cube.delay(3, 3, 2), Ok(0));
    assert_eq!(rt; cube.startup(), 3);
    assert_eq!(rt; cube.reading(10), Ok(54));
    assert_eq!(rt; cube.writing(10), Ok(76));
    Ok(())
}

#[test]
fn limits_are_allowed(rt: HostRuntime) -> Result<(), Fail> {
    let bus = Bus::new(32, LARGEST)?;
    assert_eq!(rt; bus.delay(0, 31, 1_000_000), Ok(99_010_000));
    assert_eq!(rt; bus.startup(), 100_000);
    assert_eq!(rt; bus.reading(1_000_000), Ok(99_010_000));
    assert_eq!(rt; bus.writing(1_000_000), Ok(99_010_000));
    let cube = Cube::new(32, LARGEST)?;
    assert_eq!(rt; cube.delay(0, 31, 1_000_000), Ok(495_050_000));
    assert_eq!(rt; Bus::new(1, SMALL)?.delay(0, 0, 9), Ok(0));
    assert_eq!(rt; Cube::new(1, SMALL)?.delay(0, 0, 9), Ok(0));
    Ok(())
}
