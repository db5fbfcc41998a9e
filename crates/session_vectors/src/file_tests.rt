//! Files that fail in the midst of a command, and a record that changes behind the opening and before a compaction.
use super::base::{changing, files_of, run_over};
use base_files::Swap;
use shell_session::Status;
use std::alloc::{AllocError, Global};
use std::test::Fail;

/// What is written of two games of which the second can't be read: `export` writes game by game.
const EXPORTED: &[u8] =
    b"base 2 games 0 mended\n[Event \"?\"]\n[Site \"?\"]\n[Date \"1910.??.??\"]\n[Round \"?\"]\n[White \"?\"]\n[Black \"?\"]\n\
[Result \"1-0\"]\n[ECO \"B15\"]\n\n1. e4 c6 2. d4 d5 3. Nc3 dxe4 4. Nxe4 Nf6 5. Qd3 e5 6. dxe5 Qa5+ 7. Bd2 Qxe5\n\
8. O-O-O Nxe4 9. Qd8+ Kxd8 10. Bg5+ Kc7 11. Bd8# 1-0\n\n";

/// And `find` when it is done.
const FIND: &[u8] = b"find rnbqkbnr/pppppppp/8/8/8/8/PPPPPPPP/RNBQKBNR w\n";

const OPENED: &[u8] = b"base 2 games 0 mended\n";

/// Whether a script over a base of which the second game can't be read behind the opening ends there, with this text, and leaves the files.
fn ends_there(alloc: Global, script: &[u8], text: &[u8]) -> Result<bool, AllocError> {
    let before = files_of(alloc, 2, &[])?;
    let mut files = files_of(alloc, 2, &[7])?;
    let (status, written) = run_over(alloc, &mut files, script)?;
    let same = files.index() == before.index()
        && files.names() == before.names()
        && files.games() == before.games();
    Ok(status == Status::FilesFault && written.as_slice() == text && same)
}

#[test]
fn ends_where_a_game_is_not_read(rt: HostRuntime) -> Result<(), Fail> {
    assert!(rt; ends_there(rt.alloc(), b"export\n", EXPORTED)?);
    assert!(rt; ends_there(rt.alloc(), FIND, OPENED)?);
    Ok(())
}

/// Behind the opening Black's queen goes to b5 at the seventh move, and takes no pawn.
const ANOTHER: Swap = Swap {
    before: 5,
    place: 16,
    byte: 0x41,
};

/// Whether a session ended because the record of the first game is that of another one.
fn is_changed(status: &Status) -> bool {
    match status {
        Status::Changed { game, found, .. } => *game == 0 && found.is_some(),
        _ => false,
    }
}

#[test]
fn a_compaction_ends_where_a_record_has_changed(rt: HostRuntime) -> Result<(), Fail> {
    let before = files_of(rt.alloc(), 1, &[])?;
    let mut files = changing(rt.alloc(), ANOTHER)?;
    let (status, written) = run_over(rt.alloc(), &mut files, b"compact\n")?;
    assert!(rt; is_changed(&status));
    assert!(rt; written.as_slice() == b"base 1 games 0 mended\n".as_slice());
    assert!(rt; files.index() == before.index());
    Ok(())
}
