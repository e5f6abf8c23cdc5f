// What is asked of whole machines, and lists of machines of different types.
use crate::figures::SMALL;
use machine::{
    Bus, Cube, Either, Figures, Machine, MachineRefusal, Waiting, Withholding, answer_alike,
    greatest_delay,
};
use std::test::Fail;

#[test]
fn one_list_mixes_machines(rt: HostRuntime) -> Result<(), Fail> {
    let cube = Cube::new(4, SMALL)?;
    let machines = [
        Either::Left(Bus::new(2, SMALL)?),
        Either::Right(Waiting {
            below: cube,
            wait: 5,
        }),
    ];
    assert_eq!(rt; machines[0].processors(), 2);
    assert_eq!(rt; machines[1].processors(), 4);
    assert_eq!(rt; machines[0].delay(0, 1, 2), Ok(3));
    assert_eq!(rt; machines[1].delay(0, 3, 2), Ok(11));
    assert_eq!(rt;
        machines[0].delay(0, 3, 2),
        Err(MachineRefusal::NoSuchProcessor(3))
    );
    assert_eq!(rt; machines[1].startup(), 3);
    assert_eq!(rt; machines[0].reading(10), Ok(54));
    assert_eq!(rt; machines[1].writing(10), Ok(76));
    Ok(())
}

#[test]
fn the_greatest_delay_is_found(rt: HostRuntime) -> Result<(), Fail> {
    let cube = Cube::new(8, SMALL)?;
    assert_eq!(rt; greatest_delay(&cube, 2), Ok(9));
    assert_eq!(rt;
        greatest_delay(
            &Waiting {
                below: cube,
                wait: 5,
            },
            2,
        ),
        Ok(14)
    );
    let without = Withholding {
        below: Cube::new(2, SMALL)?,
        hidden: 0,
    };
    assert_eq!(rt; greatest_delay(&without, 2), Ok(0));
    assert_eq!(rt;
        greatest_delay(&Bus::new(3, SMALL)?, 1_000_000),
        Ok(1_000_001)
    );
    assert_eq!(rt; greatest_delay(&Bus::new(1, SMALL)?, 2), Ok(0));
    assert_eq!(rt;
        greatest_delay(&Bus::new(1, SMALL)?, 1_000_001),
        Err(MachineRefusal::SizeTooLarge)
    );
    Ok(())
}

#[test]
fn machines_answer_alike(rt: HostRuntime) -> Result<(), Fail> {
    let bus = Bus::new(2, SMALL)?;
    let cube = Cube::new(2, SMALL)?;
    assert!(rt; answer_alike(&bus, &cube, 0, 1, 7));
    assert!(rt; answer_alike(&bus, &cube, 2, 0, 7));
    assert!(rt; answer_alike(&bus, &cube, 1, 1, 1_000_001));
    assert!(rt; !answer_alike(&bus, &Bus::new(3, SMALL)?, 0, 0, 0));
    assert!(rt;
        !answer_alike(
            &bus,
            &Waiting {
                below: cube,
                wait: 1,
            },
            0,
            1,
            7,
        )
    );
    assert!(rt;
        answer_alike(
            &bus,
            &Waiting {
                below: cube,
                wait: 1,
            },
            1,
            1,
            7,
        )
    );
    assert!(rt; !answer_alike(&bus, &Bus::new(2, Figures::default())?, 1, 1, 7));
    Ok(())
}

// Lets a layer over any machine go, whether or not it can be copied.
fn let_go<M: Machine + Drop>(layer: Waiting<Withholding<M>>) -> u32 {
    layer.processors()
}

#[test]
fn layers_are_copied_and_let_go(rt: HostRuntime) -> Result<(), Fail> {
    let hiding = Withholding {
        below: Cube::new(4, SMALL)?,
        hidden: 0,
    };
    let layer = Waiting {
        below: hiding,
        wait: 5,
    };
    let copy = layer;
    assert_eq!(rt; let_go(layer), 3);
    assert_eq!(rt; let_go(copy), 3);
    Ok(())
}
