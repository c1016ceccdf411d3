// The record, and its update on any board.
ghost use Rattle.std.specs.Prelude.{◌≡◌, ◌+◌, ◌<◌, ◌≤◌, ◌++◌, length, replicate};
ghost use Rattle.model.specs.Writes.{bytes};
ghost use Rattle.region.specs.Numbers.{part};
ghost use Rattle.survey.specs.Record.{record_at, record_end, Prepared, Updated, Found, OldOrNew};

use board::rounds::write_round;
use board::{Board, Slip};
use region::read::read_bytes;

pub(crate) const LEN: usize = 8;
// The record's first place: it crosses from the first line of the line board into the second.
pub(crate) const AT: usize = 60;
// The place behind the record.
const END: usize = AT + LEN;

pub(crate) const OLD: [u8; LEN] = *b"old-vote";

pub(crate) const NEW: [u8; LEN] = *b"NEW+VOTE";

// Settles the bytes from `at` on, and gives the power a supply.
// kept: the answer of the round is dropped, since a shorter board is no error here.
pub(crate) fn prepare<B: Board>(board: &mut B, supply: Option<u64>, at: usize, bytes: &[u8])
    ensures size { (B.meaning board.new).size ≡ (B.meaning board.old).size }
    ensures prepared { at + length bytes.now ≤ (B.meaning board.old).size → Prepared at bytes.now supply (B.meaning board.new) }
{
    board.cut(&[], None);
    let slip = Slip::take();
    let _ = write_round(board, slip, at, bytes);
    board.cut(&[], supply);
}

// Updates the record, and answers how many writing calls were carried out.
// kept: the size stands in the clauses here and in the table, since a shorter board is no error: a struct over long boards would have to
// refuse one.
pub(crate) fn update<B: Board>(board: &mut B, supply: Option<u64>) -> u64
    ensures { record_end ≤ (B.meaning board.old).size → Updated B.width supply result (B.meaning board.new) }
{
    prepare(board, supply, AT, &OLD);
    let slip = Slip::take();
    write_round(board, slip, AT, &NEW).unwrap_or_else(|stopped| stopped.carried)
}

// The N present bytes from `at` on; zeros where they would pass the board's end.
// kept: no `Option`, since a shorter board is no error here.
pub(crate) fn present_bytes<const N: usize, B: Board>(board: &B, at: usize) -> [u8; N]
    ensures within { at + N ≤ (B.meaning board.now).size → result ≡ part (bytes (B.meaning board.now)) at N }
    ensures outside { (B.meaning board.now).size < at + N → result ≡ replicate N 0 }
{
    let mut bytes = [0; N];
    let _ = read_bytes(board, at, &mut bytes);
    bytes
}

// The bytes wanted of a cut, up to the record's end: these where the record is.
fn image(wanted: &[u8; LEN]) -> [u8; END]
    ensures { result ≡ replicate record_at 0 ++ wanted.now }
{
    let mut bytes = [0; END];
    bytes[AT..].copy_from_slice(wanted);
    bytes
}

// Updates the record, cuts the power with these bytes wanted where the record is, and answers what it holds then.
pub(crate) fn found<B: Board>(board: &mut B, supply: Option<u64>, wanted: &[u8; LEN]) -> [u8; LEN]
    ensures found { record_end ≤ (B.meaning board.old).size → Found B.width supply result (B.meaning board.new) }
    ensures either { record_end ≤ (B.meaning board.old).size → OldOrNew result }
{
    let _ = update(board, supply);
    board.cut(&image(wanted), None);
    present_bytes(board, AT)
}
