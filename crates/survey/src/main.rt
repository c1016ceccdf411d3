// What a power cut leaves, at every supply of power and on both makes of board: of an 8-byte record that is updated in one round of
// writing, and of a region that is formatted in three.
#![tactic(auto)]

use board::line::{Cell, LineBoard};
use board::through::ThroughBoard;
use std::io;

mod formats;
mod kept;
mod record;
mod table;

use formats::survey_format;
use table::survey;

// The places of each board.
const SIZE: usize = 128;

fn main(rt: HostRuntime) -> io::Result<()> {
    println!(rt;
        "An 8-byte record at places 60 to 67 is updated in one round of writing, and the power is cut."
    )?;
    println!(rt; "A loose place, marked x, may be found with its old or its new byte.")?;
    let mut cells = [Cell::settled_at(0); SIZE];
    println!(rt; "\nLine board, 64 places to a line")?;
    survey(&rt, &mut LineBoard::over(&mut cells))?;
    let mut bytes = [0; SIZE];
    println!(rt; "\nThrough board, every byte lasts as it is stored")?;
    survey(&rt, &mut ThroughBoard::over(&mut bytes))?;
    println!(rt;
        "\nA region whose bottom frame has progress 7 is formatted in three rounds, and the power is cut."
    )?;
    println!(rt; "Places 0 to 43 are then found:")?;
    println!(rt; "\nLine board")?;
    survey_format(&rt, &mut LineBoard::over(&mut cells))?;
    println!(rt; "\nThrough board")?;
    survey_format(&rt, &mut ThroughBoard::over(&mut bytes))
}
