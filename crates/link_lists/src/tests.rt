//! Examples.

use super::*;

const NODES: usize = 8;

const LISTS: usize = 3;

#[test]
fn the_others_keep_their_order(rt: HostRuntime) {
    let mut links: Links<NODES, LISTS> = Links::new();
    links.push_back(1, 5);
    links.push_back(1, 2);
    links.push_back(1, 7);
    links.unlink(2);
    assert_eq!(rt; links.list_of(2), None);
    assert_eq!(rt; links.list_of(7), Some(1));
    assert_eq!(rt; links.pop_front(1), Some(5));
    assert_eq!(rt; links.pop_front(1), Some(7));
    assert_eq!(rt; links.pop_front(1), None);
}

#[test]
fn a_moved_list_stands_behind_the_other(rt: HostRuntime) {
    let mut links: Links<NODES, LISTS> = Links::new();
    links.push_back(0, 4);
    links.push_back(0, 1);
    links.push_back(2, 6);
    links.push_back(2, 3);
    links.move_all(0, 2);
    assert_eq!(rt; links.first(0), None);
    assert_eq!(rt; links.list_of(4), Some(2));
    for want in [6, 3, 4, 1] {
        assert_eq!(rt; links.pop_front(2), Some(want));
    }
    assert_eq!(rt; links.first(2), None);
}

#[test]
fn the_largest_begins_empty(rt: HostRuntime) {
    let links: Links<128, 128> = Links::new();
    for k in 0..128 {
        assert_eq!(rt; links.first(k), None);
        assert!(rt; !links.is_linked(k));
    }
}
