//! What no clause says: that the calls succeed with ample memory, and how much is written of what a device fails at.

use base_files::{
    DeviceError, Files, Input, MemFiles, MemSink, MemSource, Source, read_to_limit, write_all,
};
use std::alloc::Global;
use std::test::Fail;

#[test]
fn an_endless_source_repeats_its_piece(rt: HostRuntime) -> Result<(), Fail> {
    let piece = b"abc".to_vec(rt.alloc())?;
    let mut source = MemSource::endless(piece);
    let mut into = [0u8; 2];
    for want in [*b"ab", *b"ca", *b"bc"] {
        assert_eq!(rt; source.read(&mut into), Ok(2));
        assert_eq!(rt; into, want);
    }
    Ok(())
}

// The length of the whole input, if it is within the limit.
fn length_within(alloc: Global, text: &[u8], limit: usize) -> Result<Option<usize>, DeviceError> {
    let bytes = text.to_vec(alloc)?;
    let mut source = MemSource::new(bytes, 2, Vec::new(alloc));
    match read_to_limit(alloc, &mut source, limit)? {
        Input::Whole(whole) => Ok(Some(whole.len())),
        Input::TooLong => Ok(None),
    }
}

#[test]
fn an_input_is_read_up_to_a_limit(rt: HostRuntime) -> Result<(), Fail> {
    for (limit, want) in [(4, None), (5, Some(5)), (6, Some(5))] {
        assert_eq!(rt;
            length_within(rt.alloc(), b"lines", limit),
            Ok(want),
            "at limit {limit}"
        );
    }
    Ok(())
}

#[test]
fn a_sink_takes_all_in_pieces(rt: HostRuntime) -> Result<(), Fail> {
    let taken = b">".to_vec(rt.alloc())?;
    let mut sink = MemSink::new(taken, 2, Vec::new(rt.alloc()));
    assert_eq!(rt; write_all(&mut sink, b"one"), Ok(()));
    assert_eq!(rt; sink.taken(), b">one".as_slice());
    Ok(())
}

#[test]
fn a_front_part_is_added_where_adding_fails(rt: HostRuntime) -> Result<(), Fail> {
    let games = b"ab".to_vec(rt.alloc())?;
    let fails = Vec::from_slice(rt.alloc(), &[0])?;
    let mut files = MemFiles::new(Vec::new(rt.alloc()), Vec::new(rt.alloc()), games, fails);
    assert_eq!(rt; files.append_games(1, b"cdef"), Err(DeviceError::Failed));
    assert_eq!(rt; files.games(), b"ab\0cd".as_slice());
    assert_eq!(rt; files.append_games(0, b"!"), Ok(()));
    assert_eq!(rt; files.games(), b"ab\0cd!".as_slice());
    Ok(())
}
