#![tactic(auto)]

// Tells in words what frames hold: for each text line of standard input, which is a plan byte in two digits, a space and
// a frame's line, the frame's parts or the fault, and at the end how many frames and faults there were.
ghost use Rattle.std.specs.Prelude.{IfOk, string_bytes};
ghost use Rattle.inspect.specs.Means.{Told};

mod tally;
mod texts;
mod words;

use lines::FRAME_ROOM;
use std::alloc::{AllocError, Global};
use std::io;
use std::io::{BufRead, BufReader};
use tally::Tally;
use texts::read_text;
use words::{fault_words, frame_words};

/// What is told of a text line, which is counted.
fn tell(heap: Global, text: &[u8], tally: &mut Tally) -> Result<String, AllocError>
    ensures { IfOk result (λ s. Told text.now (string_bytes s) tally.old tally.new) }
{
    let mut bytes = [0; FRAME_ROOM];
    match read_text(text, &mut bytes) {
        Ok(frame) => {
            tally.count_frame();
            frame_words(heap, frame)
        }
        Err(fault) => {
            tally.count_fault();
            fault_words(heap, fault)
        }
    }
}

fn main(rt: HostRuntime) -> io::Result<()> {
    let heap = rt.alloc();
    let mut tally = Tally::default();
    for text in BufReader::new(heap, rt.stdin())?.split(heap, b'\n') {
        let words = tell(heap, text?.as_slice(), &mut tally)?;
        print!(rt; "{words}")?;
    }
    let frames = tally.frames;
    let faults = tally.faults;
    println!(rt; "frames: {frames}, faults: {faults}")
}
