// heaplog: runs a script of calls from standard input and prints a line for each; with -o FILE it writes the image of the heap that the run leaves. Reading and
// writing stand here; what a piece of the script does stands in `script_run`, what an image is in `image`. Assumes nothing of its own: standard input and output
// are std's, and no clause of std says what the system gives and takes.
#![tactic(auto)]

mod saved; // saved.rt: -o FILE

ghost use Rattle.std.specs.Prelude.{◌≡◌, ◌≤◌, length};
ghost use Rattle.script_run.specs.Run.{Buffers};

use saved::save_heap;
use script_run::Log;
use sizes::RECORD_BYTES;
use std::io::Read;

// How many bytes of the script are read at a time.
const PIECE_LEN: usize = 4096;

// The length of the output buffer: room for a line of 86 bytes for each byte of a piece.
const OUT_LEN: usize = 86 * PIECE_LEN;

// Kept: not an array of main, whose check it would make many times longer (b).
fn out_buffer() -> [u8; OUT_LEN] {
    [0u8; OUT_LEN]
}

// Writes what the run has printed. What cannot be written is lost: the run goes on.
fn write_printed(to: &impl Print, mut log: Log, out: &[u8]) -> Log
    requires { log.printed ≤ length out.now }
    ensures opened_value { result.opened ≡ log.opened }
    ensures printed_value { result.printed ≡ 0 }
{
    let _ = to.write_all(&out[..log.printed]);
    log.printed = 0;
    log
}

// Reads one piece, feeds it, and writes what it printed; where the input ends, or cannot be read, so does the run.
fn turn(
    from: &mut impl Read,
    to: &impl Print,
    log: Log,
    arena: &mut [u8],
    control: &mut [u8],
    out: &mut [u8],
) -> Log
    requires buffers { Buffers arena.old control.old }
    requires out_len { length out.old ≡ 352256 }
    requires opened_bound { log.opened ≤ 49152 }
    requires printed_value { log.printed ≡ 0 }
    ensures opened_bound_2 { result.opened ≤ 49152 }
    ensures printed_value_2 { result.printed ≡ 0 }
{
    let mut buf = [0u8; PIECE_LEN];
    let n = from.read(&mut buf).unwrap_or(0);
    if n == 0 {
        let last = script_run::finish(log, arena, control, out);
        return Log {
            ended: true,
            ..write_printed(to, last, out)
        };
    }
    let fed = script_run::feed_piece(log, &buf[..n], arena, control, out);
    write_printed(to, fed, out)
}

fn main(rt: HostRuntime) {
    let mut arena = [0u8; 49152];
    let mut control = [0u8; RECORD_BYTES];
    let mut out = out_buffer();
    let begun = script_run::begin(&mut arena, &mut control, &mut out);
    let mut log = write_printed(&rt, begun, &out);
    let mut input = rt.stdin();
    // Nothing says that the input ends: the turns are counted.
    for _ in 0..u64::MAX {
        log = turn(&mut input, &rt, log, &mut arena, &mut control, &mut out);
        if log.ended {
            break;
        }
    }
    save_heap(&rt, &arena, &control, log.opened);
}
