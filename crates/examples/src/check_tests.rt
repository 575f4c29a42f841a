//! The counting check: nets, sets that are none, and refusals. Expected numbers come from counting by a script.
use base::faults::Numbers;
use checks::check::least_t;
use std::test::Fail;

// Eight points with eight equal coordinates.
const EIGHT_EQUAL: [u32; 64] = [
    0, 0, 0, 0, 0, 0, 0, 0, 4, 4, 4, 4, 4, 4, 4, 4, 2, 2, 2, 2, 2, 2, 2, 2, 6, 6, 6, 6, 6, 6, 6, 6,
    1, 1, 1, 1, 1, 1, 1, 1, 5, 5, 5, 5, 5, 5, 5, 5, 3, 3, 3, 3, 3, 3, 3, 3, 7, 7, 7, 7, 7, 7, 7, 7,
];

// Sixteen points of base 4 in two coordinates.
const SIXTEEN: [u32; 32] = [
    0, 0, 1, 4, 2, 8, 3, 12, 4, 1, 5, 5, 6, 9, 7, 13, 8, 2, 9, 6, 10, 10, 11, 14, 12, 3, 13, 7, 14,
    11, 15, 15,
];

// Nine Faure points of base 3 in three coordinates.
const FAURE: [u32; 27] = [
    0, 0, 0, 3, 3, 3, 6, 6, 6, 1, 4, 7, 4, 7, 1, 7, 1, 4, 2, 8, 5, 5, 2, 8, 8, 5, 2,
];

#[test]
fn nets_of_several_bases(rt: HostRuntime) -> Result<(), Fail> {
    let mut counters = [9u32; 20];
    assert_eq!(rt; least_t(3, 2, 3, 2, &FAURE, &mut counters)?, 0);
    assert_eq!(rt; counters[8], 0);
    assert_eq!(rt; counters[9], 9);
    assert_eq!(rt;
        least_t(6, 2, 1, 1, &[1, 7, 13, 19, 25, 31], &mut counters)?,
        0
    );
    assert_eq!(rt;
        least_t(6, 2, 1, 1, &[1, 2, 13, 19, 25, 31], &mut counters)?,
        1
    );
    assert_eq!(rt; least_t(2, 2, 1, 2, &[0, 0, 2, 2], &mut counters)?, 1);
    assert_eq!(rt; least_t(2, 2, 1, 2, &[0, 0, 0, 0], &mut counters)?, 2);
    assert_eq!(rt;
        least_t(2, 3, 8, 0, &[5, 5, 5, 5, 5, 5, 5, 5], &mut counters)?,
        0
    );
    Ok(())
}

#[test]
fn sixteen_points_of_base_four(rt: HostRuntime) -> Result<(), Fail> {
    let mut counters = [1u32; 16];
    assert_eq!(rt; least_t(4, 2, 2, 2, &SIXTEEN, &mut counters)?, 0);
    assert_eq!(rt; counters[15], 0);
    Ok(())
}

#[test]
fn eight_equal_coordinates(rt: HostRuntime) -> Result<(), Fail> {
    let mut counters = [0u32; 8];
    assert_eq!(rt; least_t(2, 3, 8, 3, &EIGHT_EQUAL, &mut counters)?, 2);
    Ok(())
}

#[test]
fn refused_in_order(rt: HostRuntime) -> Result<(), Fail> {
    let mut counters = [9u32; 4];
    assert_eq!(rt;
        least_t(1, 2, 1, 9, &[9], &mut counters)
            .err()
            .map(Numbers::from),
        Some(Numbers(2, 4, 255, 0))
    );
    assert_eq!(rt;
        least_t(2, 2, 9, 2, &[9], &mut counters)
            .err()
            .map(Numbers::from),
        Some(Numbers(2, 4, 255, 0))
    );
    assert_eq!(rt;
        least_t(2, 2, 1, 3, &[9], &mut counters)
            .err()
            .map(Numbers::from),
        Some(Numbers(8, 4, 255, 0))
    );
    assert_eq!(rt;
        least_t(2, 32, 1, 13, &[9], &mut counters)
            .err()
            .map(Numbers::from),
        Some(Numbers(8, 4, 255, 0))
    );
    assert_eq!(rt;
        least_t(2, 2, 1, 2, &[9], &mut counters)
            .err()
            .map(Numbers::from),
        Some(Numbers(3, 4, 255, 0))
    );
    assert_eq!(rt;
        least_t(2, 3, 1, 3, &[0, 1, 2, 3, 4, 5, 6, 7], &mut counters)
            .err()
            .map(Numbers::from),
        Some(Numbers(3, 4, 255, 0))
    );
    assert_eq!(rt;
        least_t(2, 2, 1, 2, &[0, 1, 4, 9], &mut counters)
            .err()
            .map(Numbers::from),
        Some(Numbers(7, 4, 255, 2))
    );
    assert_eq!(rt; counters[0], 9);
    assert_eq!(rt; counters[3], 9);
    Ok(())
}
