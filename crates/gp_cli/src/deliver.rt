//! Writing the answer.

ghost use Rattle.gp_io.specs.Outside.{piece_of};
ghost use Rattle.gp_cli.specs.Written.{out_pieces};
ghost use Rattle.gp_cli.specs.inside.Parts.{Delivers, Writes};
ghost use Rattle.gp_cli.specs.Statuses.{status_code};

use crate::reply::Reply;
use crate::status::Status;
use gp_io::{Failed, Sink};

// Writes the piece, unless it is empty.
fn write_piece<S: Sink>(sink: &mut S, piece: &[u8]) -> Result<(), Failed>
    ensures { Writes (S.known sink.old) (S.known sink.new) (piece_of piece.now) result }
{
    match piece {
        [_, ..] => sink.write(piece),
        [] => Ok(()),
    }
}

// Writes the one piece and then the other.
fn write_both<S: Sink>(sink: &mut S, first: &[u8], second: &[u8]) -> Result<(), Failed>
    ensures { Writes (S.known sink.old) (S.known sink.new) (out_pieces first.now second.now) result }
{
    match write_piece(sink, first) {
        Err(Failed) => Err(Failed),
        Ok(()) => write_piece(sink, second),
    }
}

/// Writes the texts of the answer, and answers its status, or 9 where a write fails; then nothing more is written.
pub(crate) fn deliver<O: Sink, E: Sink>(reply: &Reply, out: &mut O, err: &mut E) -> u8
    ensures { Delivers (status_code reply.now.status) (out_pieces reply.now.journal.items reply.now.result.items) (piece_of reply.now.err.items)
        (O.known out.old) (O.known out.new) (E.known err.old) (E.known err.new) result }
{
    match write_both(out, &reply.journal, &reply.result) {
        Err(Failed) => Status::Write.code(),
        Ok(()) => match write_piece(err, &reply.err) {
            Err(Failed) => Status::Write.code(),
            Ok(()) => reply.status.code(),
        },
    }
}
