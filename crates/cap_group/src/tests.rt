use super::*;
use sls_base::GROUP_SLOTS;

const PEN: Cap = Cap {
    object: 7,
    rights: 3,
};

/// A group that has the capability in every slot.
fn full_group(cap: Cap) -> Group {
    let mut group = Group::new();
    for _ in 0..GROUP_SLOTS {
        if let Some(slot) = group.lowest_free() {
            group.set(slot, cap);
        }
    }
    group
}

#[test]
fn the_lowest_free_slot_after_drops(rt: HostRuntime) {
    let mut group = Group::new();
    assert_eq!(rt; group.lowest_free(), Some(0));
    group.set(0, PEN);
    group.set(2, PEN);
    assert_eq!(rt; group.lowest_free(), Some(1));
    group.set(1, PEN);
    assert_eq!(rt; group.lowest_free(), Some(3));
    group.clear(1);
    group.clear(0);
    assert_eq!(rt; group.lowest_free(), Some(0));
    assert_eq!(rt; group.find(1), None);
    assert_eq!(rt; group.find(2), Some(PEN));
}

#[test]
fn a_full_group_has_no_free_slot(rt: HostRuntime) {
    let mut group = full_group(PEN);
    assert_eq!(rt; group.lowest_free(), None);
    group.clear(31);
    assert_eq!(rt; group.lowest_free(), Some(31));
    group.clear(6);
    assert_eq!(rt; group.lowest_free(), Some(6));
}

#[test]
fn nothing_is_found_behind_the_last_slot(rt: HostRuntime) {
    let group = full_group(PEN);
    for (slot, want) in [
        (0, Some(PEN)),
        (31, Some(PEN)),
        (32, None),
        (287, None),
        (u32::MAX, None),
    ] {
        assert_eq!(rt; group.find(slot), want, "at {slot}");
    }
}

#[test]
fn a_capability_has_each_right_that_it_was_given(rt: HostRuntime) {
    for (rights, wanted, want) in [
        (3, 0, true),
        (3, 2, true),
        (3, 3, true),
        (3, 4, false),
        (3, 7, false),
        (0, 0, true),
        (0, 1, false),
        (15, 15, true),
        (15, 16, false),
        (15, 17, false),
    ] {
        let cap = Cap { object: 7, rights };
        assert_eq!(rt; cap.has(wanted), want, "{wanted} of {rights}");
    }
}
