// What is told of an answer or a stop.
ghost use Rattle.std.specs.Prelude.{◌≡◌, IfOk};
ghost use Rattle.tile_io.specs.Prints.{Prints};
ghost use Rattle.tilebench.specs.Inner.Tells.{Tells, Refuses, WritesAnswer, written_status};
ghost use Rattle.tilebench.specs.Refusals.{counter_stop_name, refused_text};
ghost use Rattle.tilebench.specs.Refusals.{refused_words};
ghost use Rattle.tilebench.specs.Statuses.{answer_status};
ghost use Rattle.command_line.specs.Commands.{words_stop_name};

use crate::room::Reply;
use crate::status::{Ran, Status};
use crate::stop::Stop;
use command_line::WordsStop;
use counter_compile::CounterStop;
use itoa::Buffer;
use site_table::Grown;
use tile_io::{Failed, Sink, TextFault, print_line};

/// Writes the text of an answer, or the refusal where there is none.
pub fn tell<A: Reply + Drop, K: Sink, E: Sink>(
    answer: Result<(A, Option<Grown>), Stop>,
    out: &mut K,
    err: &mut E,
) -> Ran
    requires { IfOk answer (λ found. A.printable found.0) }
    ensures { Tells A.yes A.text K.written K.faults E.written E.faults
        out.old out.new err.old err.new answer result }
{
    match answer {
        Ok((reply, grown)) => print_reply(&reply, grown, out),
        Err(stop) => Ran {
            status: refuse(stop, err),
            grown: None,
        },
    }
}

// Writes the text of an answer, and hands out its growth.
fn print_reply<A: Reply, K: Sink>(reply: &A, grown: Option<Grown>, out: &mut K) -> Ran
    requires { A.printable reply.now }
    ensures { WritesAnswer K.written K.faults out.old out.new
        (A.yes reply.now) (A.text reply.now) grown result }
{
    let status = answer_status(reply.is_yes());
    match reply.print(out) {
        Ok(()) => Ran { status, grown },
        Err(Failed) => Ran {
            status: Status::WriteFault,
            grown: None,
        },
    }
}

// The status of an answer.
fn answer_status(is_yes: bool) -> Status
    ensures { result ≡ answer_status is_yes }
{
    if is_yes { Status::Done } else { Status::No }
}

/// Writes the line of a stop, if it has one.
pub fn refuse<E: Sink>(stop: Stop, err: &mut E) -> Status
    ensures { Refuses E.written E.faults err.old err.new stop result }
{
    match stop {
        Stop::Words(words) => written(print_words_stop(words, err), stop.status()),
        Stop::Counter(counter) => written(print_counter_stop(counter, err), stop.status()),
        Stop::Text(fault) => written(print_fault(fault, err), stop.status()),
        Stop::ReadFault | Stop::NoMemory => stop.status(),
    }
}

// The line of a refusal of the words.
fn print_words_stop<E: Sink>(stop: WordsStop, err: &mut E) -> Result<(), Failed>
    ensures { Prints E.written E.faults err.old err.new result
        (refused_words (words_stop_name stop)) }
{
    print_line(err, b"refused", &[b"words", stop.name().as_bytes()])
}

// The line of a refusal of a counter's numbers.
fn print_counter_stop<E: Sink>(stop: CounterStop, err: &mut E) -> Result<(), Failed>
    ensures { Prints E.written E.faults err.old err.new result
        (refused_words (counter_stop_name stop)) }
{
    print_line(
        err,
        b"refused",
        &[b"words", counter_stop_name(stop).as_bytes()],
    )
}

// How the program calls a refusal of a counter's numbers.
fn counter_stop_name(stop: CounterStop) -> &'static str
    ensures { result.now ≡ counter_stop_name stop }
{
    match stop {
        CounterStop::BitsOutOfRange => "BitsOutOfRange",
        CounterStop::StartTooLarge => "StartTooLarge",
        CounterStop::TooTall => "TooTall",
        CounterStop::NoMemory => "NoMemory",
    }
}

// The line of a fault of the input.
fn print_fault<E: Sink>(fault: TextFault, err: &mut E) -> Result<(), Failed>
    ensures { Prints E.written E.faults err.old err.new result (refused_text fault) }
{
    let mut line = Buffer::new();
    let line = line.format(fault.line).as_bytes();
    let cause = fault.cause.name().as_bytes();
    print_line(err, b"refused", &[b"text", b"line", line, cause])
}

// The status of a refusal that was to be written.
fn written(done: Result<(), Failed>, told: Status) -> Status
    ensures { result ≡ written_status done told }
{
    match done {
        Ok(()) => told,
        Err(Failed) => Status::WriteFault,
    }
}
