//! Filters that a seat keeps by name.
use cell_core::Text;
use client_desk::{KeepError, Seat};
use std::alloc::{AllocError, Global};
use std::test::Fail;

/// The names of eight filters, as many as a seat keeps.
const NAMES: [&[u8]; 8] = [b"a", b"b", b"c", b"d", b"e", b"f", b"g", b"h"];

// Keeps the filter under a name, and says how that went.
fn keep(alloc: Global, seat: &mut Seat, name: &[u8]) -> Result<Result<(), KeepError>, AllocError> {
    match Text::try_new(Vec::from_slice(alloc, name)?) {
        Ok(name) => Ok(seat.keep(alloc, &name)),
        Err(_) => Ok(Err(KeepError::Memory)),
    }
}

#[test]
fn keeps_eight_filters(rt: HostRuntime) -> Result<(), Fail> {
    let mut seat = Seat::new(rt.alloc(), 2, 0, 2)?;
    for name in NAMES {
        assert!(rt; keep(rt.alloc(), &mut seat, name)?.is_ok());
        assert!(rt; seat.saved(name).is_some());
    }
    assert!(rt; keep(rt.alloc(), &mut seat, b"i")? == Err(KeepError::Full));
    assert!(rt; seat.saved(b"i").is_none());
    assert!(rt; keep(rt.alloc(), &mut seat, b"a")?.is_ok());
    assert!(rt; seat.forget(b"h"));
    assert!(rt; keep(rt.alloc(), &mut seat, b"i")?.is_ok());
    Ok(())
}
