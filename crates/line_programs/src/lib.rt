// The loop of the programs `frames`, `coding` and `receiving`: a text is read from standard input, and what its lines
// tell is written to standard output. What a line tells is the program's (`LineAnswer` of `text_lines`).
#![tactic(auto)]

ghost use Rattle.std.specs.Prelude.{◌≡◌, length};
ghost use Rattle.settings.specs.Answers.{number_of};
ghost use Rattle.text_lines.specs.Turned.{areas_fit};
ghost use Rattle.line_programs.specs.Areas.{own_areas, areas_number, area_left};

use settings::{Answer, Refusal};
use std::io::{Read, Write};
use text_lines::{LineAnswer, Reading};

// How long the area for a piece of the text is.
const PIECE: usize = 65536;

// How long an array may be.
const LONGEST: usize = usize::MAX / 2;

// What a program tells on standard error, a line each: that standard input cannot be read, and that standard output
// cannot be written. Each is a whole line, so that it goes out in one write.
#[derive(Clone, Copy)]
pub struct Complaints<'a> {
    pub input: &'a [u8],
    pub output: &'a [u8],
}

// Complaints, each told behind a name: it is empty where they are whole lines already.
#[derive(Clone, Copy)]
struct NamedComplaints<'a> {
    name: &'a str,
    input: &'a [u8],
    output: &'a [u8],
}

// Runs a program, in an area of LINE bytes for a line and one of ANSWER bytes for an answer. Where these are not the
// lengths that its definitions say the answer is 5, and nothing is read or printed.
pub fn run_in_own_areas<R: LineAnswer, const LINE: usize, const ANSWER: usize>(
    rt: &HostRuntime,
    complaints: Complaints,
    first: R,
) -> Answer
    ensures { number_of result ≡ areas_number R.room R.most LINE ANSWER }
{
    if !own_areas(R::ROOM, R::MOST, LINE, ANSWER) {
        return Err(Refusal::WrongLength);
    }
    let mut line = [0u8; LINE];
    let mut out = [0u8; ANSWER];
    let named = NamedComplaints {
        name: "",
        input: complaints.input,
        output: complaints.output,
    };
    turns(rt, named, first, &mut line, &mut out);
    Ok(())
}

// Runs a program in areas that are lent, one as long as its definitions say for a line, and one with room for its
// longest answer. What it needs of both is left cleared, and what lies behind stays. Where they are others nothing is
// read or printed, and they stay as they were. What is told on standard error begins with the program's name.
#[tactic(auto, unfolding(crate::specs::Areas::area_left, text_lines::specs::Turned::areas_fit))]
pub fn run<R: LineAnswer>(rt: &HostRuntime, name: &str, first: R, line: &mut [u8], out: &mut [u8])
    ensures line_after { line.new ≡ area_left (areas_fit R.room R.most line.old out.old) R.room line.old }
    ensures out_after { out.new ≡ area_left (areas_fit R.room R.most line.old out.old) R.most out.old }
{
    if text_lines::areas_fit(R::ROOM, R::MOST, line, out) {
        let answer = &mut out[0..R::MOST];
        let named = NamedComplaints {
            name,
            input: b": standard input cannot be read\n",
            output: b": standard output cannot be written\n",
        };
        turns(rt, named, first, line, answer);
        line.fill(0);
        answer.fill(0);
    }
}

// Whether areas of these lengths are a program's own. (No array has more bytes than LONGEST, which the prover asks for
// where one is lent.)
#[tactic(auto, unfolding(crate::specs::Areas::own_areas))]
fn own_areas(room: usize, most: usize, line: usize, answer: usize) -> bool
    ensures { result ≡ own_areas room most line answer }
{
    line == room && answer == most && line <= LONGEST && answer <= LONGEST
}

// Makes turns up to the end of the text or of the run. The areas are as long as the definitions say, so no turn is
// refused. A proved loop has to end, and nothing says that the input does: the turns are counted, as far as a number
// goes.
fn turns<R: LineAnswer>(
    rt: &HostRuntime,
    complaints: NamedComplaints,
    first: R,
    line: &mut [u8],
    out: &mut [u8],
)
    requires { (R.room ≡ length line.old) × (R.most ≡ length out.old) }
{
    let mut text = [0u8; PIECE];
    let mut run = first;
    let mut reading = text_lines::new_reading();
    for _ in 0..u64::MAX {
        reading = next_piece(rt, complaints, reading, &mut text);
        let turned = text_lines::turn(run, reading, &text, line, out);
        let made = turned.answer.is_ok();
        prove!(made);
        run = turned.run;
        reading = turned.reading;
        if !print(rt, complaints, &out[0..turned.written]) || !turned.more {
            break;
        }
    }
}

// Reads the next piece of standard input, where nothing is left of the last one. If it cannot be read the text is at
// its end, and no line has begun.
fn next_piece(
    rt: &HostRuntime,
    complaints: NamedComplaints,
    reading: Reading,
    text: &mut [u8],
) -> Reading {
    if reading.at < reading.end {
        return reading;
    }
    match rt.stdin().read(text) {
        Ok(got) => text_lines::with_piece(reading, got),
        Err(_) => {
            complain(rt, complaints.name, complaints.input);
            text_lines::new_reading()
        }
    }
}

// Writes what is to be printed, and tells whether that could be done.
fn print(rt: &HostRuntime, complaints: NamedComplaints, answer: &[u8]) -> bool {
    if rt.stdout().write_all(answer).is_ok() {
        return true;
    }
    complain(rt, complaints.name, complaints.output);
    false
}

// Tells on standard error what has failed. There is nowhere to tell that this fails too.
fn complain(rt: &HostRuntime, name: &str, failure: &[u8]) {
    if rt.stderr().write_all(name.as_bytes()).is_ok() {
        let _ = rt.stderr().write_all(failure);
    }
}
