//! A few sets, by hand.
use aps_levels::{Bits64, Levels};

/// The set of these numbers.
fn set_of(numbers: &[usize]) -> Bits64 {
    let mut set = Bits64::none();
    for number in numbers {
        set = set.with((*number).min(63));
    }
    set
}

#[test]
fn the_least_number_is_found(rt: HostRuntime) {
    let set = set_of(&[63, 5, 40]);
    assert!(rt; set.least() == Some(5));
    assert!(rt; set.without(5).least() == Some(40));
    assert!(rt; Bits64::none().least() == None);
}

#[test]
fn numbers_come_and_go(rt: HostRuntime) {
    let set = set_of(&[63, 5, 40]);
    assert!(rt; set.has(63) && !set.has(62));
    assert!(rt; !set.is_empty() && Bits64::none().is_empty());
    assert!(rt; set.put(5, false) == set.without(5));
    assert!(rt; set_of(&[5]).put(63, true) == set_of(&[5, 63]));
}

#[test]
fn sets_are_put_together(rt: HostRuntime) {
    let set = set_of(&[63, 5, 40]);
    let other = set_of(&[40, 1]);
    assert!(rt; set.upper_half() == set_of(&[31, 8]));
    assert!(rt; set.minus(other) == set_of(&[5, 63]));
    assert!(rt; set.meet(other) == set_of(&[40]));
    assert!(rt; set_of(&[40]).join(set) == set);
}

/// The level set, with one more.
fn with(levels: Levels, level: usize) -> Levels {
    levels.with(level.min(255))
}

#[test]
fn the_least_level_is_found_in_each_quarter(rt: HostRuntime) {
    let mut levels = Levels::none();
    assert!(rt; levels.least() == None);
    for level in [255usize, 192, 191, 128, 127, 64, 63, 0] {
        levels = with(levels, level);
        assert!(rt; levels.least() == Some(level));
        assert!(rt; levels.has(level.min(255)));
    }
    assert!(rt; levels.without(0).without(63).least() == Some(64));
}
