use super::*;

#[test]
fn things_stand_at_their_words(rt: HostRuntime) {
    for (what, place, want) in [
        ("the first log entry", log_entry_at(0), 32),
        ("the last log entry", log_entry_at(639), 671),
        ("the tag of page 0", backup_tag_at(0), 672),
        ("the tag of page 511", backup_tag_at(511), 1_183),
        ("the hot word of spare 0", hot_word_at(0), 1_184),
        ("the hot word of spare 31", hot_word_at(31), 1_215),
        ("the tag of slot 1 of object 0", object_tag_at(0, 1), 1_217),
        ("the tag of slot 0 of object 1", object_tag_at(1, 0), 1_218),
        ("the last object tag", object_tag_at(127, 1), 1_471),
        ("slot 1 of object 0", object_slot_at(0, 1), 1_600),
        ("slot 0 of object 2", object_slot_at(2, 0), 1_792),
        ("the last slot", object_slot_at(127, 1), 17_856),
        ("frame 0", frame_at(0), 17_920),
        ("the frame of page 4", frame_at(runtime_frame(4)), 22_016),
        ("its backup frame", frame_at(backup_frame(4)), 22_528),
        ("the last spare's frame", frame_at(spare_frame(31)), 558_080),
    ] {
        assert_eq!(rt; place, want, "{what}");
    }
}

#[test]
fn unused_words_are_between_the_others(rt: HostRuntime) {
    for (first, last) in [(3, 7), (9, 15), (26, 31), (1_472, 1_535)] {
        for (word, want) in [
            (first - 1, false),
            (first, true),
            (last, true),
            (last + 1, false),
        ] {
            assert_eq!(rt; is_unused(word), want, "at {word}");
        }
    }
}

#[test]
fn numbers_have_bits_of_the_base(rt: HostRuntime) {
    for (number, word, bit) in [
        (Number::Object(0), 16, 0),
        (Number::Object(100), 17, 36),
        (Number::Page(0), 18, 0),
        (Number::Page(511), 25, 63),
    ] {
        assert_eq!(rt; number.base_bit(), BaseBit { word, bit });
    }
    // Objects 0 to 10 and pages 0 to 4 are in use; object 11 and page 5 come, and page 4 goes.
    assert_eq!(rt; with_bit(2_047, 11, true), 4_095);
    assert_eq!(rt; with_bit(31, 5, true), 63);
    assert_eq!(rt; with_bit(31, 4, false), 15);
    assert!(rt; is_in_base(31, 4) && !is_in_base(31, 5));
}

#[test]
fn words_are_read_as_what_they_tell(rt: HostRuntime) {
    for (word, tag) in [
        (0, Tag::Empty),
        (1, Tag::Of(0)),
        (8, Tag::Of(7)),
        (u64::MAX, Tag::Of(u64::MAX - 1)),
    ] {
        assert_eq!(rt; Tag::from_word(word), tag);
    }
    for (word, tag, page) in [
        (0x5_8009, Tag::Of(4), 9),
        (0x8000, Tag::Empty, 0),
        (0xFFFF_FFFF_FFFF_81FF, Tag::Of(0xFFFF_FFFF_FFFE), 511),
    ] {
        assert_eq!(rt; HotWord::from_word(word), Some(HotWord { tag, page }));
    }
    for (word, version, entries) in [
        (1, 0, 1),
        (0x1_0000, 1, 0),
        (0x3_0002, 3, 2),
        (u64::MAX, 0xFFFF_FFFF_FFFF, 0xFFFF),
    ] {
        let head = LogHead { version, entries };
        assert_eq!(rt; LogHead::from_word(word), Some(head));
        assert_eq!(rt; head.to_word(), word);
    }
    for (word, number, comes) in [
        (25, Number::Object(12), true),
        (268, Number::Page(6), false),
        (277, Number::Page(10), true),
        (1_279, Number::Page(511), true),
    ] {
        assert_eq!(rt; LogEntry::from_word(word), Some(LogEntry { number, comes }));
    }
}

#[test]
fn words_of_another_form_tell_nothing(rt: HostRuntime) {
    for word in [0, 0x7FFF, 0x5_0009, 0x5_7FFF, 0x5_8200, 0x5_FFFF] {
        assert_eq!(rt; HotWord::from_word(word), None, "hot word {word}");
    }
    assert_eq!(rt; LogHead::from_word(0), None);
    for word in [1_280, u64::MAX] {
        assert_eq!(rt; LogEntry::from_word(word), None, "entry {word}");
    }
}
