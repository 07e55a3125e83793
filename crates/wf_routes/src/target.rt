//! The parts of a request's target.

ghost use Rattle.std.specs.Prelude.{◌≡◌, IfOk, option_map, slice_get, string_bytes};
ghost use Rattle.std.specs.List.{after_first, before_first};
ghost use Rattle.wf_routes.specs.Paths.{segments};
ghost use Rattle.wf_routes.specs.Target.{is_question, parameter_text};

use crate::faults::NoMemory;
use percent_encoding::{DecodeError, percent_decode};
use std::alloc::Global;

/// The path of a target and its query: what stands before the first `?`, and what stands behind it.
pub fn split_target(target: &str) -> (&str, &str)
    ensures path { result.0.now ≡ before_first is_question target.now }
    ensures query { result.1.now ≡ after_first is_question target.now }
{
    match target.split_once('?') {
        Some((path, query)) => (path, query),
        None => (target, ""),
    }
}

/// A segment of a path, still encoded. Segment 0 stands before the first slash, so that it is empty
/// in a path that begins with one.
pub fn segment(path: &str, place: usize) -> Option<&str>
    ensures { option_map (λ segment. segment.now) result ≡ slice_get (segments path.now) place }
{
    path.split('/').nth(place)
}

/// The text of a parameter: its escapes are decoded, and a `%` that no two hexadecimal digits follow
/// stays, as does a `+`. `None` where the bytes are no UTF-8.
pub fn decode_parameter(alloc: Global, segment: &str) -> Result<Option<String>, NoMemory>
    ensures { IfOk result (λ text. option_map (λ t. string_bytes t) text ≡ parameter_text segment.now) }
{
    match percent_decode(segment.as_bytes()).decode_utf8(alloc) {
        Ok(text) => Ok(Some(text.into_owned(alloc)?)),
        Err(DecodeError::Utf8(_)) => Ok(None),
        Err(DecodeError::OutOfMemory) => Err(NoMemory),
    }
}
