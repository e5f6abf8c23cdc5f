// Each refusal, and which comes first.
use crate::figures::SMALL;
use machine::{Bus, Cube, Figures, Machine, MachineRefusal};
use std::test::Fail;

// The seven figures in their order.
fn in_order(numbers: [u32; 7]) -> Figures {
    Figures {
        delay_base: numbers[0],
        delay_unit: numbers[1],
        startup: numbers[2],
        reading_base: numbers[3],
        reading_unit: numbers[4],
        writing_base: numbers[5],
        writing_unit: numbers[6],
    }
}

#[test]
fn a_delay_is_refused_in_order(rt: HostRuntime) -> Result<(), Fail> {
    let bus = Bus::new(3, SMALL)?;
    assert_eq!(rt;
        bus.delay(3, 9, 1_000_001),
        Err(MachineRefusal::NoSuchProcessor(3))
    );
    assert_eq!(rt;
        bus.delay(2, 9, 1_000_001),
        Err(MachineRefusal::NoSuchProcessor(9))
    );
    assert_eq!(rt;
        bus.delay(2, 1, 1_000_001),
        Err(MachineRefusal::SizeTooLarge)
    );
    assert_eq!(rt;
        bus.delay(2, 2, 1_000_001),
        Err(MachineRefusal::SizeTooLarge)
    );
    assert_eq!(rt; bus.delay(2, 1, 1_000_000), Ok(1_000_001));
    let cube = Cube::new(4, SMALL)?;
    assert_eq!(rt;
        cube.delay(4, 5, 1_000_001),
        Err(MachineRefusal::NoSuchProcessor(4))
    );
    assert_eq!(rt;
        cube.delay(3, 5, 1_000_001),
        Err(MachineRefusal::NoSuchProcessor(5))
    );
    assert_eq!(rt;
        cube.delay(3, 0, 1_000_001),
        Err(MachineRefusal::SizeTooLarge)
    );
    Ok(())
}

#[test]
fn a_large_size_is_refused(rt: HostRuntime) -> Result<(), Fail> {
    let bus = Bus::new(3, SMALL)?;
    assert_eq!(rt; bus.reading(1_000_000), Ok(5_000_004));
    assert_eq!(rt; bus.reading(1_000_001), Err(MachineRefusal::SizeTooLarge));
    assert_eq!(rt; bus.writing(1_000_001), Err(MachineRefusal::SizeTooLarge));
    let cube = Cube::new(4, SMALL)?;
    assert_eq!(rt; cube.reading(1_000_001), Err(MachineRefusal::SizeTooLarge));
    assert_eq!(rt; cube.writing(1_000_001), Err(MachineRefusal::SizeTooLarge));
    Ok(())
}

#[test]
fn a_number_of_processors_is_refused_first(rt: HostRuntime) {
    let large = Figures {
        delay_base: 10_001,
        ..Figures::default()
    };
    assert_eq!(rt;
        Bus::new(0, large).err(),
        Some(MachineRefusal::ProcessorCount(0))
    );
    assert_eq!(rt;
        Bus::new(33, Figures::default()).err(),
        Some(MachineRefusal::ProcessorCount(33))
    );
    assert_eq!(rt; Bus::new(31, Figures::default()).err(), None);
    assert_eq!(rt;
        Cube::new(0, Figures::default()).err(),
        Some(MachineRefusal::ProcessorCount(0))
    );
    assert_eq!(rt;
        Cube::new(3, large).err(),
        Some(MachineRefusal::ProcessorCount(3))
    );
    assert_eq!(rt;
        Cube::new(64, Figures::default()).err(),
        Some(MachineRefusal::ProcessorCount(64))
    );
    assert_eq!(rt; Cube::new(16, Figures::default()).err(), None);
}

#[test]
fn the_first_large_figure_is_refused(rt: HostRuntime) {
    let cases = [
        (1, [10_001, 100, 0, 0, 0, 0, 0]),
        (2, [0, 100, 0, 0, 0, 0, 100]),
        (3, [0, 0, 100_001, 10_001, 0, 0, 0]),
        (4, [0, 0, 0, 10_001, 0, 10_001, 0]),
        (5, [0, 0, 0, 0, 100, 10_001, 0]),
        (6, [0, 0, 0, 0, 0, 10_001, 100]),
        (7, [10_000, 99, 100_000, 10_000, 99, 10_000, 100]),
    ];
    for (place, numbers) in cases {
        let figures = in_order(numbers);
        assert_eq!(rt;
            Bus::new(2, figures).err(),
            Some(MachineRefusal::FigureTooLarge(place))
        );
        assert_eq!(rt;
            Cube::new(2, figures).err(),
            Some(MachineRefusal::FigureTooLarge(place))
        );
    }
}

#[test]
fn refusals_have_numbers_and_places(rt: HostRuntime) {
    let processor = MachineRefusal::NoSuchProcessor(9);
    assert_eq!(rt;
        (processor.layer(), processor.number(), processor.place()),
        (3, 25, 9)
    );
    let size = MachineRefusal::SizeTooLarge;
    assert_eq!(rt; (size.layer(), size.number(), size.place()), (3, 26, 0));
    let count = MachineRefusal::ProcessorCount(33);
    assert_eq!(rt; (count.layer(), count.number(), count.place()), (3, 27, 33));
    let figure = MachineRefusal::FigureTooLarge(7);
    assert_eq!(rt;
        (figure.layer(), figure.number(), figure.place()),
        (3, 28, 7)
    );
}

#[test]
fn a_refusal_is_shown(rt: HostRuntime) -> Result<(), Fail> {
    let figure = MachineRefusal::FigureTooLarge(7);
    assert_eq!(rt; figure.to_string(rt.alloc())?.as_str(), "3 28 7");
    let size = MachineRefusal::SizeTooLarge;
    assert_eq!(rt; size.to_string(rt.alloc())?.as_str(), "3 26 0");
    Ok(())
}
