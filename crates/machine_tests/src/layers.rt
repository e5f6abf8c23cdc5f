// The layers over a machine, alone and stacked.
use crate::distant::Distant;
use crate::figures::SMALL;
use machine::{Bus, Cube, Machine, MachineRefusal, Waiting, Withholding};
use std::test::Fail;

#[test]
fn a_wait_is_added(rt: HostRuntime) -> Result<(), Fail> {
    let slow = Waiting {
        below: Cube::new(4, SMALL)?,
        wait: 5,
    };
    assert_eq!(rt; slow.processors(), 4);
    assert_eq!(rt; slow.delay(0, 3, 2), Ok(11));
    assert_eq!(rt; slow.delay(0, 1, 0), Ok(6));
    assert_eq!(rt; slow.delay(2, 2, 2), Ok(0));
    assert_eq!(rt; slow.startup(), 3);
    assert_eq!(rt; slow.reading(10), Ok(54));
    assert_eq!(rt; slow.writing(10), Ok(76));
    assert_eq!(rt;
        slow.delay(4, 5, 2),
        Err(MachineRefusal::NoSuchProcessor(4))
    );
    assert_eq!(rt;
        slow.delay(0, 3, 1_000_001),
        Err(MachineRefusal::SizeTooLarge)
    );
    Ok(())
}

#[test]
fn a_long_wait_counts_as_a_million(rt: HostRuntime) -> Result<(), Fail> {
    let below = Cube::new(4, SMALL)?;
    assert_eq!(rt;
        Waiting {
            below,
            wait: 999_999,
        }
        .delay(0, 3, 2),
        Ok(1_000_005)
    );
    assert_eq!(rt;
        Waiting {
            below,
            wait: 1_000_000,
        }
        .delay(0, 3, 2),
        Ok(1_000_006)
    );
    assert_eq!(rt;
        Waiting {
            below,
            wait: 1_000_001,
        }
        .delay(0, 3, 2),
        Ok(1_000_006)
    );
    assert_eq!(rt;
        Waiting {
            below,
            wait: u32::MAX,
        }
        .delay(0, 3, 2),
        Ok(1_000_006)
    );
    Ok(())
}

#[test]
fn the_cap_holds(rt: HostRuntime) {
    let one = Waiting {
        below: Distant,
        wait: 1,
    };
    let two = Waiting {
        below: one,
        wait: 1,
    };
    let three = Waiting {
        below: two,
        wait: 1,
    };
    assert_eq!(rt; one.delay(0, 1, 5), Ok(999_999_999));
    assert_eq!(rt; two.delay(0, 1, 5), Ok(1_000_000_000));
    assert_eq!(rt; three.delay(0, 1, 5), Ok(1_000_000_000));
    assert_eq!(rt; three.delay(1, 1, 5), Ok(0));
}

#[test]
fn a_processor_is_hidden(rt: HostRuntime) -> Result<(), Fail> {
    let below = Cube::new(4, SMALL)?;
    let without_first = Withholding { below, hidden: 0 };
    assert_eq!(rt; without_first.processors(), 3);
    assert_eq!(rt; without_first.delay(0, 1, 2), Ok(6));
    assert_eq!(rt; without_first.delay(0, 2, 2), Ok(3));
    let without_last = Withholding { below, hidden: 3 };
    assert_eq!(rt; without_last.processors(), 3);
    assert_eq!(rt; without_last.delay(0, 2, 2), Ok(3));
    assert_eq!(rt; without_last.delay(1, 2, 2), Ok(6));
    assert_eq!(rt; without_last.startup(), 3);
    assert_eq!(rt; without_last.reading(10), Ok(54));
    assert_eq!(rt; without_last.writing(10), Ok(76));
    Ok(())
}

#[test]
fn nothing_is_hidden(rt: HostRuntime) -> Result<(), Fail> {
    let absent = Withholding {
        below: Cube::new(4, SMALL)?,
        hidden: 4,
    };
    assert_eq!(rt; absent.processors(), 4);
    assert_eq!(rt; absent.delay(0, 3, 2), Ok(6));
    let only = Withholding {
        below: Bus::new(1, SMALL)?,
        hidden: 0,
    };
    assert_eq!(rt; only.processors(), 1);
    assert_eq!(rt; only.delay(0, 0, 2), Ok(0));
    assert_eq!(rt;
        only.delay(0, 1, 2),
        Err(MachineRefusal::NoSuchProcessor(1))
    );
    Ok(())
}

#[test]
fn refusals_name_the_number_asked_for(rt: HostRuntime) -> Result<(), Fail> {
    let hiding = Withholding {
        below: Cube::new(4, SMALL)?,
        hidden: 1,
    };
    assert_eq!(rt;
        hiding.delay(3, 4, 1_000_001),
        Err(MachineRefusal::NoSuchProcessor(3))
    );
    assert_eq!(rt;
        hiding.delay(2, 3, 1_000_001),
        Err(MachineRefusal::NoSuchProcessor(3))
    );
    assert_eq!(rt;
        hiding.delay(2, 1, 1_000_001),
        Err(MachineRefusal::SizeTooLarge)
    );
    assert_eq!(rt;
        hiding.reading(1_000_001),
        Err(MachineRefusal::SizeTooLarge)
    );
    assert_eq!(rt;
        hiding.writing(1_000_001),
        Err(MachineRefusal::SizeTooLarge)
    );
    Ok(())
}

#[test]
fn layers_stack(rt: HostRuntime) -> Result<(), Fail> {
    let slow = Waiting {
        below: Cube::new(4, SMALL)?,
        wait: 5,
    };
    let three = Withholding {
        below: slow,
        hidden: 1,
    };
    assert_eq!(rt; three.delay(0, 2, 2), Ok(11));
    let slower = Waiting {
        below: three,
        wait: 7,
    };
    assert_eq!(rt; slower.delay(0, 2, 2), Ok(18));
    let two = Withholding {
        below: slower,
        hidden: 0,
    };
    assert_eq!(rt; two.processors(), 2);
    assert_eq!(rt; two.delay(0, 1, 2), Ok(15));
    let one = Withholding {
        below: two,
        hidden: 1,
    };
    assert_eq!(rt; one.processors(), 1);
    let still_one = Withholding {
        below: one,
        hidden: 0,
    };
    assert_eq!(rt; still_one.processors(), 1);
    assert_eq!(rt;
        still_one.delay(1, 0, 2),
        Err(MachineRefusal::NoSuchProcessor(1))
    );
    Ok(())
}
