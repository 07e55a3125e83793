//! The command `batch`: requests from a source, their replies to a sink, one after another.

ghost use Rattle.std.specs.Prelude.{◌≡◌, ◌≢◌, ◌<◌, ◌≤◌, ◌+◌, ◌^◌, ◌⊎◌, ◌↔◌, Err, IfErr, IfOk, None, Ok, Some, true, false, length};
ghost use Rattle.wf_wire.specs.Stream.{Rose};
ghost use Rattle.wf_wire.specs.Items.{Coming};
ghost use Rattle.wf_steps.specs.Calls.{IsProper};
ghost use Rattle.wf_machine.specs.Replies.{IsPrintable};
ghost use Rattle.wf_rest.specs.Moments.{moment_at};
ghost use Rattle.wf_machine.specs.Records.{IsMoment};
ghost use Rattle.wf_rest.specs.Requests.{timed_call};
ghost use Rattle.wf_rest.specs.Responses.{printed_fault};
ghost use Rattle.wf_rest.specs.Serving as spec;
ghost use Rattle.wf_rest.specs.Serving.{IsAsked, call_of, fault_of, is_last};
ghost use Rattle.wf_commands.specs.Words.{are_batch};
ghost use Rattle.wf_commands.specs.Runs.{CompletesFromClock, IsNoMessage, RunsFromClock, RunsOver, first_mark, first_state};
ghost use Rattle.wf_commands.specs.Turns.{IsAnswer, IsAnswered, IsRefused, IsStopped, IsTurn};

use crate::status::Status;
use crate::words::{Word, is_batch};
use std::alloc::Global;
use wf_core::Core;
use wf_doc::{NoMemory, Text};
use wf_machine::Reply;
use wf_names::Refusal;
use wf_rest::{HttpFault, Routes, is_encoded, moment_of, print_fault, print_reply, read_call};
use wf_steps::Call;
use wf_wire::laws::{items_are_unique, read_messages_are_first};
use wf_wire::{Clock, Inbox, Limits, Message, Next, Sink, Source, next_message, write_all};

/// The mark of the store, which is new at each run.
const MARK: u32 = 1;

/// The last moment that there is, in milliseconds.
const LAST_MOMENT: u64 = 9_007_199_254_740_991;

/// More messages than an input can hold.
const MOST_TURNS: u64 = 1 << 61;

/// What one turn comes to.
#[derive(Clone, Copy, Debug, PartialEq, Eq)]
pub enum Turn {
    /// Another request may follow.
    Goes,
    Stops(Status),
}

/// Answers one request.
fn answer<W: Sink>(
    alloc: Global,
    moment: u64,
    core: &mut Core,
    routes: &Routes,
    sink: &mut W,
    message: &Message,
) -> Turn
    requires entries { core.old.entries < 2 ^ 62 }
    requires moment { IsMoment moment }
    ensures turn { IsAnswered core.old.limits moment core.old.state core.new.state message.now (W.taken sink.old) (W.taken sink.new) result }
    ensures limits { core.new.limits ≡ core.old.limits }
    ensures entries { core.new.entries ≤ core.old.entries + 1 }
    ensures count { W.faults sink.old ≤ W.faults sink.new }
    ensures cause { result ≡ Turn.Stops Status.WriteFault → Rose (W.faults sink.old) (W.faults sink.new) }
    ensures own_status { (result ≢ Turn.Stops Status.Usage) × (result ≢ Turn.Stops Status.ReadFault) }
{
    let answer = match print_answer(alloc, moment, core, routes, message) {
        Ok(answer) => answer,
        Err(NoMemory) => return Turn::Stops(Status::NoMemory),
    };
    if write_all(sink, answer.text.as_str().as_bytes()).is_err() {
        return Turn::Stops(Status::WriteFault);
    }
    if answer.last {
        Turn::Stops(Status::Done)
    } else {
        Turn::Goes
    }
}

/// A printed answer, and whether nothing is answered after it.
#[derive(Drop)]
struct Printed {
    text: Text,
    last: bool,
}

/// Asks the machine what a request asks for, and prints the answer.
fn print_answer(
    alloc: Global,
    moment: u64,
    core: &mut Core,
    routes: &Routes,
    message: &Message,
) -> Result<Printed, NoMemory>
    requires entries { core.old.entries < 2 ^ 62 }
    requires moment { IsMoment moment }
    ensures answer { IfOk result (λ answer. IsAnswer core.old.limits moment core.old.state core.new.state message.now answer.last answer.text) }
    ensures limits { core.new.limits ≡ core.old.limits }
    ensures entries { core.new.entries ≤ core.old.entries + 1 }
{
    let head = message.method() == b"HEAD".as_slice();
    match ask(alloc, moment, core, routes, message) {
        Ok(told) => Ok(Printed {
            text: print_reply(alloc, &told.reply, MARK, told.last, head)?,
            last: told.last,
        }),
        Err(fault) => Ok(Printed {
            text: print_fault(alloc, &fault, message.closes(), head)?,
            last: message.closes(),
        }),
    }
}

/// A reply of the machine, and whether nothing is answered after it.
#[derive(Drop)]
struct Told {
    reply: Reply,
    last: bool,
}

/// The machine's reply to a request, or why it is no call. Where memory was wanting while it was read, the reply says so.
fn ask(
    alloc: Global,
    moment: u64,
    core: &mut Core,
    routes: &Routes,
    message: &Message,
) -> Result<Told, HttpFault>
    requires entries { core.old.entries < 2 ^ 62 }
    requires moment { IsMoment moment }
    ensures asked { IfOk result (λ told. IsAsked core.old.limits moment core.old.state core.new.state (call_of core.old.limits first_mark message.now) (Some told.reply)) }
    ensures last { IfOk result (λ told. is_last core.old.limits first_mark (record { request = message.now; reply = Some told.reply }) ≡ told.last) }
    ensures none { IfErr result (λ fault. IsAsked core.old.limits moment core.old.state core.new.state (call_of core.old.limits first_mark message.now) None) }
    ensures fault { IfErr result (λ fault. fault_of core.old.limits first_mark message.now ≡ fault) }
    ensures printable { IfOk result (λ told. IsPrintable told.reply) }
    ensures limits { core.new.limits ≡ core.old.limits }
    ensures entries { core.new.entries ≤ core.old.entries + 1 }
{
    match read_timed(alloc, core.limits(), routes, message) {
        Ok(call) => {
            let asks_end = is_shutdown(&call);
            let reply = core.step(alloc, 0, moment, call);
            let last = message.closes() || (asks_end && was_accepted(&reply));
            Ok(Told { reply, last })
        }
        Err(HttpFault::NoMemory) => Ok(Told {
            reply: Reply::Refused(Refusal::NoMemory),
            last: message.closes(),
        }),
        Err(fault) => Err(fault),
    }
}

fn is_shutdown(call: &Call) -> bool
    ensures { result ≡ spec.is_shutdown (Some call.now) }
{
    match call {
        Call::Shutdown => true,
        _ => false,
    }
}

fn was_accepted(reply: &Reply) -> bool
    ensures { result ≡ spec.was_accepted (Some reply.now) }
{
    match reply {
        Reply::Accepted => true,
        _ => false,
    }
}

/// The call that a request is. A bad moment is told before all but a Content-Encoding.
fn read_timed(
    alloc: Global,
    limits: &Limits,
    routes: &Routes,
    message: &Message,
) -> Result<Call, HttpFault>
    ensures ok { IfOk result (λ call. timed_call limits.now first_mark message.now ≡ Ok call) }
    ensures proper { IfOk result IsProper }
    ensures err { IfErr result (λ fault. fault ≢ HttpFault.NoMemory → timed_call limits.now first_mark message.now ≡ Err fault) }
{
    if !is_encoded(message) {
        moment_of(message)?;
    }
    read_call(alloc, message, MARK, limits, routes)
}

/// The moment of a request: the one that it states, or else that of the request before it.
fn moment_at(before: u64, message: &Message) -> u64
    requires { IsMoment before }
    ensures moment { result ≡ moment_at before message.now }
    ensures range { IsMoment result }
{
    match moment_of(message) {
        Ok(Some(moment)) => moment,
        _ => before,
    }
}

/// Writes a fault that ends the input, and tells the status, if it could be written.
fn refuse<W: Sink>(alloc: Global, sink: &mut W, fault: HttpFault, status: Status) -> Status
    ensures refused { IsRefused (printed_fault fault true false) status (W.taken sink.old) (W.taken sink.new) result }
    ensures count { W.faults sink.old ≤ W.faults sink.new }
    ensures cause { result ≡ Status.WriteFault → (status ≡ Status.WriteFault) ⊎ Rose (W.faults sink.old) (W.faults sink.new) }
    ensures own_status { result ≡ Status.Usage → status ≡ Status.Usage }
{
    let text = match print_fault(alloc, &fault, true, false) {
        Ok(text) => text,
        Err(NoMemory) => return Status::NoMemory,
    };
    if write_all(sink, text.as_str().as_bytes()).is_err() {
        return Status::WriteFault;
    }
    status
}

/// Stops where there is no message.
fn stop<W: Sink>(alloc: Global, sink: &mut W, end: Next) -> Status
    requires { IsNoMessage end }
    ensures stopped { IsStopped end (W.taken sink.old) (W.taken sink.new) result }
    ensures read_fault { result ≡ Status.ReadFault → end ≡ Next.ReadFault }
    ensures count { W.faults sink.old ≤ W.faults sink.new }
    ensures cause { result ≡ Status.WriteFault → Rose (W.faults sink.old) (W.faults sink.new) }
    ensures own_status { result ≢ Status.Usage }
{
    match end {
        Next::Message(_) => unreachable!(),
        Next::End => Status::Done,
        Next::Cut(at) => Status::Cut(at),
        Next::BadFrame(at) => refuse(alloc, sink, HttpFault::BadFrame, Status::BadFrame(at)),
        Next::BadCoding(at) => refuse(alloc, sink, HttpFault::Coding, Status::BadFrame(at)),
        Next::LargeHead(at) => refuse(alloc, sink, HttpFault::HeadTooLarge, Status::TooLarge(at)),
        Next::LargeBody(at) => refuse(alloc, sink, HttpFault::BodyTooLarge, Status::TooLarge(at)),
        Next::LongInput => Status::LongInput,
        Next::ReadFault => Status::ReadFault,
        Next::NoMemory => Status::NoMemory,
    }
}

/// Answers the next request of the source, or stops. The moment is the one in force, and becomes the request's.
fn take_turn<R: Source, W: Sink>(
    alloc: Global,
    moment: &mut u64,
    core: &mut Core,
    routes: &Routes,
    inbox: &mut Inbox,
    source: &mut R,
    sink: &mut W,
) -> Turn
    requires entries { core.old.entries < 2 ^ 62 }
    requires moment { IsMoment moment.old }
    requires within { inbox.old.offset + length inbox.old.held ≤ core.old.limits.input }
    ensures turn { Coming inbox.old.held (R.left source.old) inbox.new.held (R.left source.new) (λ p left p'.
        IsTurn core.old.limits moment.old moment.new inbox.old.offset p left inbox.new.offset p' core.old.state core.new.state (W.taken sink.old) (W.taken sink.new) result) }
    ensures moment { IsMoment moment.new }
    ensures within { result ≡ Turn.Goes → inbox.new.offset + length inbox.new.held ≤ core.old.limits.input }
    ensures limits { core.new.limits ≡ core.old.limits }
    ensures entries { core.new.entries ≤ core.old.entries + 1 }
    ensures source_count { R.faults source.old ≤ R.faults source.new }
    ensures sink_count { W.faults sink.old ≤ W.faults sink.new }
    ensures read_fault { result ≡ Turn.Stops Status.ReadFault → Rose (R.faults source.old) (R.faults source.new) }
    ensures write_fault { result ≡ Turn.Stops Status.WriteFault → Rose (W.faults sink.old) (W.faults sink.new) }
    ensures own_status { result ≢ Turn.Stops Status.Usage }
{
    match next_message(alloc, inbox, source, core.limits()) {
        Next::Message(message) => {
            *moment = moment_at(*moment, &message);
            answer(alloc, *moment, core, routes, sink, &message)
        }
        end => Turn::Stops(stop(alloc, sink, end)),
    }
}

/// Answers the requests of the source, up to the last answer of the run or to the end of the input.
fn serve<R: Source, W: Sink>(
    alloc: Global,
    moment: u64,
    core: &mut Core,
    routes: &Routes,
    source: &mut R,
    sink: &mut W,
) -> Status
    requires state { core.old.state ≡ first_state }
    requires entries { core.old.entries ≡ 0 }
    requires moment { IsMoment moment }
    ensures run { RunsOver core.old.limits moment (R.left source.old) (R.left source.new) (W.taken sink.old) (W.taken sink.new) result }
    ensures source_count { R.faults source.old ≤ R.faults source.new }
    ensures sink_count { W.faults sink.old ≤ W.faults sink.new }
    ensures read_fault { result ≡ Status.ReadFault → Rose (R.faults source.old) (R.faults source.new) }
    ensures write_fault { result ≡ Status.WriteFault → Rose (W.faults sink.old) (W.faults sink.new) }
    ensures usage { result ≢ Status.Usage }
{
    let mut inbox = match Inbox::new(alloc) {
        Ok(inbox) => inbox,
        Err(_) => return Status::NoMemory,
    };
    let mut in_force = moment;
    for _turn in 0..MOST_TURNS {
        match take_turn(alloc, &mut in_force, core, routes, &mut inbox, source, sink) {
            Turn::Goes => {}
            Turn::Stops(status) => return status,
        }
    }
    Status::NoMemory
}

/// Answers HTTP requests, one after another, over a new store that is kept nowhere.
///
/// The words are `batch` alone. A request acts at the moment that its one field `Moment-Ms` states, in milliseconds, or
/// else at that of the nearest request before it that states one, or else at the clock's one reading. Where an answer or an
/// end finds no memory, nothing more is written; a call that finds none is answered NO_MEMORY, and the run goes on. It ends
/// after a request that closes, and after one that asks for the end of the run, where that is accepted.
pub fn batch<R: Source, W: Sink, C: Clock>(
    alloc: Global,
    words: &[Word],
    source: &mut R,
    sink: &mut W,
    clock: &mut C,
) -> Status
    // The answers are those of one history of the machine.
    ensures run { are_batch words.now ≡ true → RunsFromClock (C.readings clock.old) (R.left source.old) (R.left source.new) (W.taken sink.old) (W.taken sink.new) result }

    // When each fault may come.
    ensures usage { (result ≡ Status.Usage) ↔ (are_batch words.now ≡ false) }
    ensures read_fault { result ≡ Status.ReadFault → Rose (R.faults source.old) (R.faults source.new) }
    ensures write_fault { result ≡ Status.WriteFault → Rose (W.faults sink.old) (W.faults sink.new) }

    // Words that are no command touch nothing.
    ensures idle { are_batch words.now ≡ false → (R.left source.new ≡ R.left source.old) × (W.taken sink.new ≡ W.taken sink.old) }

    // Where nothing fails, all is answered, but for want of memory.
    ensures complete { are_batch words.now ≡ true → ¬ (Rose (R.faults source.old) (R.faults source.new)) → ¬ (Rose (W.faults sink.old) (W.faults sink.new))
        → CompletesFromClock (C.readings clock.old) (R.left source.old) (W.taken sink.old) (W.taken sink.new) result }
{
    if !is_batch(words) {
        return Status::Usage;
    }
    let moment = clock.now().min(LAST_MOMENT);
    let Ok(routes) = Routes::new(alloc) else {
        return Status::NoMemory;
    };
    match Core::new(alloc, MARK, Limits::STANDARD) {
        Ok(mut core) => {
            // The clause `complete` stands on these laws of the wire.
            items_are_unique();
            read_messages_are_first();
            serve(alloc, moment, &mut core, &routes, source, sink)
        }
        Err(_) => Status::NoMemory,
    }
}
