// What a line, a byte, a piece and the end of the script do: each is a step of specs/Run.antt on the same bytes. Assumes nothing.
#![tactic(auto)]

ghost use Rattle.std.specs.Prelude.{◌≡◌, ◌+◌, ◌*◌, ◌≤◌, length, take};
ghost use Rattle.script_format.specs.Format.{header};
ghost use Rattle.machine.specs.Calls.{after, emptying_call, joined_after};
ghost use Rattle.script_run.specs.Run.{step, behind, before_all, line_call, called, length_of, top_after, counted, ran_step, line_step, byte_step, piece_step, end_step, run_of, Buffers, Within};

use machine::{Answer, Refusal};
use script::{Line, LineText};
use sizes::PLAIN;
use text::Page;

// A run between two bytes: the line that is being read, how many lines were run, how long the opened arena is, whether the run has ended, and how many
// bytes it has printed: so many stand in the output buffer, and a step prints behind them.
#[derive(Clone, Copy)]
pub struct Log {
    pub text: LineText,
    pub lines: u64,
    pub opened: usize,
    pub ended: bool,
    pub printed: usize,
}

// Before the first line: the header is printed, and nothing is open.
pub fn begin(arena: &mut [u8], control: &mut [u8], out: &mut [u8]) -> Log
    requires buffers { Buffers arena.old control.old }
    requires in_bounds { 22 ≤ length out.old }
    ensures out_after { step (run_of arena.new control.new result) (take result.printed out.new) ≡ step before_all header }
    ensures within { Within result 22 }
{
    arena.fill(0);
    control.fill(0);
    let mut page = Page { out, at: 0 };
    script_format::put_header(&mut page);
    Log {
        text: script_reader::no_bytes(),
        lines: 0,
        opened: 0,
        ended: false,
        printed: page.at,
    }
}

// The two calls of S, in their order: the first refusal is answered.
fn empty_and_join(arena: &mut [u8], control: &mut [u8]) -> Result<Answer, Refusal>
    ensures { after arena.new control.new result ≡ joined_after (emptying_call arena.old control.old) }
{
    let x = calls::emptying(arena, control)?;
    match x {
        Answer::Done => calls::joining(arena, control),
        Answer::Granted { .. } => Ok(x),
    }
}

// The call of a line, on the arena that it opens, with key 0 in edition 1, or that was opened.
fn call(arena: &mut [u8], control: &mut [u8], line: Line) -> Result<Answer, Refusal>
    ensures { after arena.new control.new result ≡ line_call arena.old control.old line }
{
    match line {
        Line::Open(_) => calls::open(arena, control, 0, PLAIN),
        Line::Grant(n) => calls::grant(arena, control, u64::from(n)),
        Line::Release(m) => calls::release(arena, control, u64::from(m)),
        Line::Resize { mem, n } => calls::resize(arena, control, u64::from(mem), u64::from(n)),
        Line::Settle => empty_and_join(arena, control),
        Line::Other => Ok(Answer::Done),
    }
}

// The same, on the first n of the bytes that are lent.
fn call_within(
    arena: &mut [u8],
    control: &mut [u8],
    n: usize,
    line: Line,
) -> Result<Answer, Refusal>
    requires { n ≤ length arena.old }
    ensures { after arena.new control.new result ≡ called arena.old control.old n line }
{
    call(&mut arena[..n], control, line)
}

fn length_of(line: Line, opened: usize) -> usize
    ensures { result ≡ length_of line opened }
{
    match line {
        Line::Open(n) => n as usize,
        _ => opened,
    }
}

fn top_after(ended: bool, control: &[u8]) -> u32
    requires { 8 ≤ length control.now }
    ensures { result ≡ top_after ended control.now }
{
    if ended {
        return 0;
    }
    le::read::<u32>(control, 4)
}

fn count(k: u64) -> u64
    ensures { result ≡ counted k }
{
    k.saturating_add(1)
}

// Runs a line that is in its place: the k-th, on an arena of n bytes.
fn run_placed(
    k: u64,
    n: usize,
    line: Line,
    at: usize,
    arena: &mut [u8],
    control: &mut [u8],
    out: &mut [u8],
) -> Log
    requires buffers { Buffers arena.old control.old }
    requires n_bound { n ≤ 49152 }
    requires at_in_bounds { at + 86 ≤ length out.old }
    ensures out_after { step (run_of arena.new control.new result) (take result.printed out.new)
        ≡ behind (take at out.old) (ran_step line k n (called arena.old control.old n line)) }
    ensures within { Within result (at + 86) }
{
    let x = call_within(arena, control, n, line);
    let ended = script::ends_by(line, x);
    let top = top_after(ended, control);
    let letter = script::letter_of(line);
    let mut page = Page { out, at };
    script_format::put_answer(&mut page, letter, x, top);
    Log {
        text: script_reader::no_bytes(),
        lines: k,
        opened: n,
        ended,
        printed: page.at,
    }
}

// Runs the line that was read; one that is not in its place prints `? k` and ends the run.
fn run_line(log: Log, arena: &mut [u8], control: &mut [u8], out: &mut [u8]) -> Log
    requires buffers { Buffers arena.old control.old }
    requires opened_bound { log.opened ≤ 49152 }
    requires printed_in_bounds { log.printed + 86 ≤ length out.old }
    ensures out_after { step (run_of arena.new control.new result) (take result.printed out.new)
        ≡ behind (take log.printed out.old) (line_step (run_of arena.old control.old log)) }
    ensures within { Within result (log.printed + 86) }
{
    let k = count(log.lines);
    let line = script_reader::line_read(log.text);
    if script::in_place(k, line) {
        let n = length_of(line, log.opened);
        return run_placed(k, n, line, log.printed, arena, control, out);
    }
    let mut page = Page {
        out,
        at: log.printed,
    };
    page.question(k);
    Log {
        text: script_reader::no_bytes(),
        lines: k,
        ended: true,
        printed: page.at,
        ..log
    }
}

// One byte of the script. Nothing follows the end of the run.
pub fn feed(log: Log, b: u8, arena: &mut [u8], control: &mut [u8], out: &mut [u8]) -> Log
    requires buffers { Buffers arena.old control.old }
    requires opened_bound { log.opened ≤ 49152 }
    requires printed_in_bounds { log.printed + 86 ≤ length out.old }
    ensures out_after { step (run_of arena.new control.new result) (take result.printed out.new)
        ≡ behind (take log.printed out.old) (byte_step b (run_of arena.old control.old log)) }
    ensures within { Within result (log.printed + 86) }
{
    if log.ended {
        return log;
    }
    if b == b'\n' {
        return run_line(log, arena, control, out);
    }
    Log {
        text: script_reader::feed(log.text, b),
        ..log
    }
}

// The bytes of a piece of the script, one after the other.
pub fn feed_piece(
    mut log: Log,
    piece: &[u8],
    arena: &mut [u8],
    control: &mut [u8],
    out: &mut [u8],
) -> Log
    requires buffers { Buffers arena.old control.old }
    requires opened_bound { log.opened ≤ 49152 }
    requires piece_in_bounds { log.printed + 86 * length piece.now ≤ length out.old }
    ensures out_after { step (run_of arena.new control.new result) (take result.printed out.new)
        ≡ behind (take log.printed out.old) (piece_step piece.now (run_of arena.old control.old log)) }
    ensures within { Within result (length out.new) }
{
    for b in piece {
        log = feed(log, *b, arena, control, out);
    }
    log
}

// The end of the script: a last line without its newline.
pub fn finish(log: Log, arena: &mut [u8], control: &mut [u8], out: &mut [u8]) -> Log
    requires buffers { Buffers arena.old control.old }
    requires opened_bound { log.opened ≤ 49152 }
    requires printed_in_bounds { log.printed + 86 ≤ length out.old }
    ensures out_after { step (run_of arena.new control.new result) (take result.printed out.new)
        ≡ behind (take log.printed out.old) (end_step (run_of arena.old control.old log)) }
    ensures within { Within result (log.printed + 86) }
{
    if log.ended || log.text.len == 0 {
        return log;
    }
    run_line(log, arena, control, out)
}
