use crate::words_of;
use std::io::{Error, ErrorKind};
use std::test::Fail;

#[test]
fn the_words_behind_the_programs_name_are_given_in_order(rt: HostRuntime) -> Result<(), Fail> {
    let mut all = Vec::new(rt.alloc());
    for word in ["sls_run", "run", "twice"] {
        all.push(String::from_str(rt.alloc(), word)?)?;
    }
    let words = words_of(rt.alloc(), Ok(all.into_iter()))?;
    let are_these = match words.as_slice() {
        [first, second] => first.as_str() == "run" && second.as_str() == "twice",
        _ => false,
    };
    assert!(rt; are_these);
    Ok(())
}

#[test]
fn words_that_are_no_text_are_none(rt: HostRuntime) -> Result<(), Fail> {
    let words = words_of(rt.alloc(), Err(Error::from(ErrorKind::InvalidData)))?;
    assert!(rt; words.is_empty());
    let none = words_of(rt.alloc(), Err(Error::from(ErrorKind::OutOfMemory)));
    assert!(rt; none.is_err());
    Ok(())
}
