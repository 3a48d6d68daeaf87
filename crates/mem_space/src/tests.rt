ghost use Rattle.std.specs.Prelude.{◌<◌};
ghost use Rattle.sls_base.specs.declared.limits.TheConstants.{OBJECTS};
ghost use Rattle.mem_space.specs.Region.{IsRegion};
ghost use Rattle.mem_space.specs.Space.{IsSpace};

use super::*;
use sls_base::{EXECUTE, READ, SPACE_REGIONS, WRITE};

/// Maps a region where there is room for it, and says whether it did.
fn try_map(space: &mut Space, region: Region) -> bool
    requires space { IsSpace space.old }
    requires region { IsRegion region }
    ensures { IsSpace space.new }
{
    if space.is_full() || space.overlaps(region.base, region.count) {
        return false;
    }
    space.map(region);
    true
}

const THREE_PAGES: Region = Region {
    base: 2,
    count: 3,
    first: 5,
    memory: 9,
    rights: READ + WRITE,
};

const LAST_PAGE: Region = Region {
    base: 1_048_575,
    count: 1,
    first: 63,
    memory: 10,
    rights: EXECUTE,
};

#[test]
fn regions_begin_and_end_at_their_pages(rt: HostRuntime) {
    let mut space = Space::new();
    assert!(rt; try_map(&mut space, LAST_PAGE));
    assert!(rt; try_map(&mut space, THREE_PAGES));
    for (at, right, want) in [
        (8_191, READ, None),
        (8_192, READ, Some((9, 5))),
        (12_287, WRITE, Some((9, 5))),
        (12_288, WRITE, Some((9, 6))),
        (20_479, READ + WRITE, Some((9, 7))),
        (20_480, READ, None),
        (8_192, EXECUTE, None),
        (8_192, READ + EXECUTE, None),
        (0xffff_efff, EXECUTE, None),
        (0xffff_f000, EXECUTE, Some((10, 63))),
        (u32::MAX, EXECUTE, Some((10, 63))),
        (u32::MAX, READ, None),
    ] {
        assert_eq!(rt; space.translate(at, right), want, "{right} at {at}");
    }
    for (at, want) in [
        (8_192, true),
        (8_193, false),
        (12_288, false),
        (0xffff_f000, true),
    ] {
        assert_eq!(rt; space.begins_at(at), want, "at {at}");
    }
    for (base, count, want) in [
        (0, 2, false),
        (0, 3, true),
        (4, 1, true),
        (5, 1, false),
        (3, 0, false),
        (0, 255, true),
        (1_048_575, 1, true),
        (u32::MAX, 255, false),
    ] {
        assert_eq!(rt; space.overlaps(base, count), want, "{count} from {base}");
    }
    for (base, want) in [(3, false), (2, true), (2, false), (1_048_575, true)] {
        assert_eq!(rt; space.unmap(base), want, "at {base}");
    }
}

/// A region of one page.
fn one_page(base: u8, memory: u8) -> Region
    requires { memory < OBJECTS }
    ensures { IsRegion result }
{
    Region {
        base: u32::from(base),
        count: 1,
        first: 0,
        memory,
        rights: READ,
    }
}

#[test]
fn sixteen_regions_stand_by_rising_base(rt: HostRuntime) {
    let mut space = Space::new();
    for turn in 0..16u8 {
        assert!(rt; !space.is_full());
        assert!(rt; try_map(&mut space, one_page(turn * 5 % 16, turn)));
    }
    assert!(rt; space.is_full());
    assert!(rt; !try_map(&mut space, one_page(20, 20)));
    assert_eq!(rt; space.regions.len(), SPACE_REGIONS);
    for (page, region) in space.regions.iter().enumerate() {
        assert_eq!(rt; region.base as usize, page);
        assert_eq!(rt; region.memory as usize * 5 % 16, page);
    }
}

#[test]
fn a_fresh_mark_is_that_of_one_page(rt: HostRuntime) {
    let mut memory = Memory::new();
    assert!(rt; memory.page(0).is_none());
    for number in 4..7 {
        if !memory.pages.is_full() {
            memory.pages.push(MemPage {
                page: number,
                fresh: true,
            });
        }
    }
    assert_eq!(rt; memory.pages.len(), 3);
    memory.set_fresh(1, false);
    for (index, want) in [
        (0, Some((4, true))),
        (1, Some((5, false))),
        (2, Some((6, true))),
        (3, None),
        (255, None),
    ] {
        let page = memory.page(index);
        assert_eq!(rt;
            page.map(|page| (page.page, page.fresh)),
            want,
            "at {index}"
        );
    }
    memory.set_fresh(1, true);
    assert_eq!(rt; memory.page(1).map(|page| page.fresh), Some(true));
}
