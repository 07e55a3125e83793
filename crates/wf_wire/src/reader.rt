//! Bytes that go from a source to those that are held.

ghost use Rattle.std.specs.Prelude.{◌≡◌, ◌≤◌, ◌<◌, ◌*◌, length};
ghost use Rattle.wf_wire.specs.Stream.{Rose};
ghost use Rattle.wf_wire.specs.Front.{window as first_bytes};
ghost use Rattle.wf_wire.specs.Reading.{IsFill, IsWatch, IsGot};
ghost use Rattle.wf_wire.specs.declared.reader.Filled.TheVariants.{Failed as FillFailed};
ghost use Rattle.wf_wire.specs.declared.reader.HeadWatch.TheVariants.{Failed as WatchFailed};
ghost use Rattle.wf_wire.specs.declared.reader.Got.TheVariants.{Failed as GotFailed};

use crate::head::{HeadLook, find_head};
use crate::limits::Limits;
use crate::source::Source;
use httparse::spans::{HeaderSpan, RequestSpans};

/// The most bytes that one read asks for.
const READ: usize = 4096;

/// What a read comes to.
#[derive(Clone, Copy)]
pub enum Filled {
    More,
    AtEnd,
    Failed,
    NoMemory,
}

/// The first bytes, at most as many as a head may have.
pub fn window(held: &[u8], most: u32) -> &[u8]
    ensures { result.now ≡ first_bytes most held.now }
{
    if held.len() > most as usize {
        &held[..most as usize]
    } else {
        held
    }
}

fn lesser(cap: u64) -> usize
    ensures most { result ≤ 4096 }
    ensures within { result ≤ cap }
    ensures none { result ≡ 0 → cap ≡ 0 }
{
    if cap < READ as u64 {
        cap as usize
    } else {
        READ
    }
}

/// One read of at most `cap` bytes.
pub fn fill<S: Source>(held: &mut Vec<u8>, source: &mut S, cap: &mut u64) -> Filled
    ensures bytes { IsFill held.old.items (S.left source.old) cap.old held.new.items (S.left source.new) cap.new result }
    ensures count { S.faults source.old ≤ S.faults source.new }
    ensures cause { result ≡ FillFailed → Rose (S.faults source.old) (S.faults source.new) }
{
    let most = lesser(*cap);
    if most == 0 {
        return Filled::AtEnd;
    }
    let mut room = [0u8; READ];
    match source.read(&mut room[..most]) {
        Err(_) => Filled::Failed,
        Ok(0) => Filled::AtEnd,
        Ok(n) => match held.extend_from_slice(&room[..n]) {
            Ok(()) => {
                *cap -= n as u64;
                Filled::More
            }
            Err(_) => Filled::NoMemory,
        },
    }
}

/// What reading up to a head comes to.
#[derive(Clone, Copy)]
pub enum HeadWatch {
    Head(RequestSpans),
    Bad,
    Large,
    Ended,
    Failed,
    NoMemory,
}

/// Reads until a head is there or can't be. Each look begins at the first byte again, so a source of small pieces costs more.
pub fn watch_head<S: Source>(
    held: &mut Vec<u8>,
    source: &mut S,
    cap: &mut u64,
    spans: &mut [HeaderSpan],
    limits: &Limits,
) -> HeadWatch
    requires { limits.now.head < 3 * length spans.old }
    ensures watch { IsWatch limits.now held.old.items (S.left source.old) cap.old held.new.items (S.left source.new) cap.new spans.new result }
    ensures count { S.faults source.old ≤ S.faults source.new }
    ensures cause { result ≡ WatchFailed → Rose (S.faults source.old) (S.faults source.new) }
{
    'reads: loop {
        match find_head(window(held.as_slice(), limits.head), spans, limits.fields) {
            HeadLook::Head(head) => return HeadWatch::Head(head),
            HeadLook::Large => return HeadWatch::Large,
            HeadLook::Bad => return HeadWatch::Bad,
            HeadLook::Open => {}
        }
        if held.len() >= limits.head.max(1) as usize {
            return HeadWatch::Large;
        }
        match fill(held, source, cap) {
            Filled::More => {}
            Filled::AtEnd => return HeadWatch::Ended,
            Filled::Failed => return HeadWatch::Failed,
            Filled::NoMemory => return HeadWatch::NoMemory,
        }
    }
}

/// What reading up to so many bytes comes to.
#[derive(Clone, Copy)]
pub enum Got {
    All,
    Ended,
    Failed,
    NoMemory,
}

/// Reads until so many bytes are there.
pub fn get_bytes<S: Source>(held: &mut Vec<u8>, source: &mut S, cap: &mut u64, need: u64) -> Got
    ensures got { IsGot held.old.items (S.left source.old) cap.old need held.new.items (S.left source.new) cap.new result }
    ensures count { S.faults source.old ≤ S.faults source.new }
    ensures cause { result ≡ GotFailed → Rose (S.faults source.old) (S.faults source.new) }
{
    'reads: loop {
        if held.len() as u64 >= need {
            return Got::All;
        }
        match fill(held, source, cap) {
            Filled::More => {}
            Filled::AtEnd => return Got::Ended,
            Filled::Failed => return Got::Failed,
            Filled::NoMemory => return Got::NoMemory,
        }
    }
}
