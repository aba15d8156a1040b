//! Worked moments and moduli.
use super::*;
use std::process::Abort;

#[test]
fn moments_of_a_grid(rt: HostRuntime) {
    let mut grid = Grid::new(0, 304);
    assert!(rt; !grid.cross(0), "the anchor");
    assert!(rt; !grid.cross(303), "before the first moment");
    assert!(rt; grid.cross(304), "the first moment");
    assert!(rt; grid.cross(912), "two moments at one tick");
    assert!(rt; !grid.cross(912), "the same tick again");
    assert!(rt; grid.cross(1216), "the fourth moment");
    grid.restart(1300);
    assert!(rt;
        !grid.cross(1603),
        "before the first moment of the new anchor"
    );
    assert!(rt; grid.cross(1604), "the first moment of the new anchor");
}

#[test]
fn reports_with_a_group(rt: HostRuntime) {
    for (r, modulus, due) in [
        (0, 2, true),
        (1, 2, false),
        (2, 2, true),
        (5, 1, true),
        (0, 0, false),
        (7, 255, false),
    ] {
        assert_eq!(rt;
            modulus_due(r, modulus),
            due,
            "modulus {modulus} in report {r}"
        );
    }
}
