use super::*;
use std::alloc::Global;
use std::process::Abort;
use std::test::*;

/// The image of one code word, which jumps to itself.
const BYTES: [u8; 48] = [
    0x53, 0x4c, 0x53, 0x49, 1, 0, 0, 0, 1, 0, 0, 0, // `SLSI`, format 1, one program
    0, 0, 0, 0, 1, 0, 0, 0, 0x3f, 0, 0, 0, 1, 0, 0, 0, // entry, threads, channels, regions
    0, 0, 0, 0, 1, 0, 0, 0, 7, 0, 0, 0, 4, 0, 0, 0, // base, pages, rights, length
    0x6f, 0, 0, 0,
];

#[test]
fn one_word(rt: HostRuntime) -> Result<(), Fail> {
    let image = read_image(rt.alloc(), &BYTES)
        .ok()
        .ok_or("the bytes are an image")?;
    let again = write_image(rt.alloc(), &image)?;
    assert_eq!(rt; again.as_slice(), BYTES.as_slice());
    let made = of_code(rt.alloc(), &[0x6f])?;
    let bytes = write_image(rt.alloc(), &made)?;
    assert_eq!(rt; bytes.as_slice(), BYTES.as_slice());
    Ok(())
}

/// Asserts that bytes are refused for this cause at this place.
fn refused(rt: &impl Abort, alloc: Global, bytes: &[u8], cause: ImageCause, place: u32) {
    match read_image(alloc, bytes) {
        Err(
            ImageError::Bad {
                cause: found,
                place: at,
            },
        ) => {
            assert_eq!(rt; found, cause);
            assert_eq!(rt; at, place);
        }
        _ => panic!(rt; "the bytes are refused"),
    }
}

/// The same of `BYTES` with another byte at a place.
fn refused_with(
    rt: &impl Abort,
    alloc: Global,
    at: usize,
    byte: u8,
    cause: ImageCause,
    place: u32,
) {
    let mut bytes = BYTES;
    if let Some(cell) = bytes.get_mut(at) {
        *cell = byte;
    }
    refused(rt, alloc, &bytes, cause, place);
}

#[test]
fn faults(rt: HostRuntime) {
    refused(&rt, rt.alloc(), &BYTES[..47], ImageCause::Length, 44);
    refused(&rt, rt.alloc(), &[], ImageCause::Length, 0);
    refused_with(&rt, rt.alloc(), 3, 0x4a, ImageCause::Magic, 0);
    refused_with(&rt, rt.alloc(), 4, 2, ImageCause::Version, 4);
    refused_with(&rt, rt.alloc(), 8, 17, ImageCause::Count, 8);
    refused_with(&rt, rt.alloc(), 12, 2, ImageCause::Entry, 12);
    refused_with(&rt, rt.alloc(), 16, 9, ImageCause::Count, 16);
    refused_with(&rt, rt.alloc(), 20, 64, ImageCause::Channel, 20);
    refused_with(&rt, rt.alloc(), 29, 1, ImageCause::Region, 28);
    refused_with(&rt, rt.alloc(), 32, 65, ImageCause::Region, 32);
    refused_with(&rt, rt.alloc(), 36, 8, ImageCause::Region, 36);
    refused_with(&rt, rt.alloc(), 40, 5, ImageCause::Length, 44);
}

#[test]
fn bytes_left_over(rt: HostRuntime) -> Result<(), Fail> {
    let mut bytes = Vec::from_slice(rt.alloc(), &BYTES)?;
    bytes.push(0)?;
    refused(&rt, rt.alloc(), &bytes, ImageCause::Length, 48);
    Ok(())
}

#[test]
fn made_by_seven(rt: HostRuntime) -> Result<(), Fail> {
    let image = generated(rt.alloc(), 7)?;
    assert_eq!(rt; image.programs.len(), 8);
    let bytes = write_image(rt.alloc(), &image)?;
    assert_eq!(rt; bytes.len(), 12 + 8 * (16 + 16 + 76));
    // addi x5, x0, 8 and addi x6, x0, 71
    assert_eq!(rt;
        &bytes[44..52],
        [0x93, 0x02, 0x80, 0, 0x13, 0x03, 0x70, 4].as_slice()
    );
    assert!(rt; read_image(rt.alloc(), &bytes).is_ok());
    Ok(())
}
