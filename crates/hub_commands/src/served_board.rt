//! The board beside what is served.
use board_server::{BoardKeeper, BoardServer};
use hub_faults::Fault;
use std::fs::File;
use std::io::Write;
use std::net::Net;
use std::random::RandomSource;
use std::rt::{Clock, Files};

/// Listens for the board on its port of this machine alone, where it has one, and reports among the errors where that is.
pub(crate) fn bind_board<R, E>(
    rt: &R,
    port: Option<u16>,
    errors: &mut E,
) -> Result<Option<BoardServer>, Fault>
where
    R: Files<File = File> + Net + Clock + RandomSource + AllocGlobal,
    E: Write,
{
    let Some(port) = port else {
        return Ok(None);
    };
    let Ok(board) = BoardServer::bind(rt, port) else {
        return Err(Fault::Socket);
    };
    // Where standard error fails, nobody is told where the board is; it is there all the same.
    let _ = errors.write_fmt(format_args!("board on http://127.0.0.1:{port}/\n"));
    Ok(Some(board))
}

/// The keeper of a shift that has this board, or none.
pub(crate) fn keeper_of<'x, R>(rt: &'x R, board: Option<&'x BoardServer>) -> BoardKeeper<'x, R> {
    BoardKeeper { rt, board }
}
