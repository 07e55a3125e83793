//! Why a request is answered without a call of the machine.

use std::alloc::{AllocError, AllocFailed};
use wf_doc::{DocFault, NoMemory, Text};

/// A fault of a request. Each has a code, an HTTP status and a message, which the definitions give as a table.
#[derive(Drop)]
pub enum HttpFault {
    /// The bytes aren't an HTTP message.
    BadFrame,
    /// The body's transfer coding isn't known.
    Coding,
    HeadTooLarge,
    BodyTooLarge,
    /// The body is encoded: a Content-Encoding other than `identity`, or several.
    ContentEncoding,
    /// The field Moment-Ms is repeated, or isn't a moment.
    BadMoment,
    NoRoute,
    /// The path has no such method; those that it has, as the field Allow lists them.
    BadMethod(Text),
    /// A parameter of the path isn't UTF-8, or no number where one is wanted.
    BadPath,
    /// A value of the query has another form.
    BadQuery,
    /// The body is no JSON text.
    Syntax,
    /// A number of the body has a fraction or an exponent.
    Fraction,
    /// A number of the body is out of range.
    Range,
    /// The body nests too deep.
    TooDeep,
    /// The body has another form.
    BadBody,
    /// The rule that a definition breaks first, and where.
    BadDefinition(u8, Text),
    /// The store failed.
    StoreFault,
    /// The request is of a kind that isn't built.
    NotBuilt,
    NoMemory,
}

impl From<NoMemory> for HttpFault {
    ghost use Rattle.std.specs.Prelude.{◌≡◌};
    ghost use Rattle.wf_rest.specs.declared.faulting.HttpFault.TheVariants.{NoMemory as OutOfMemory};

    ghost from_gives = { λ _ fault. fault ≡ OutOfMemory };

    fn from(_refused: NoMemory) -> HttpFault {
        HttpFault::NoMemory
    }
}

impl From<AllocError> for HttpFault {
    ghost use Rattle.std.specs.Prelude.{◌≡◌};
    ghost use Rattle.wf_rest.specs.declared.faulting.HttpFault.TheVariants.{NoMemory as OutOfMemory};

    ghost from_gives = { λ _ fault. fault ≡ OutOfMemory };

    fn from(_refused: AllocError) -> HttpFault {
        HttpFault::NoMemory
    }
}

impl<T: Drop> From<AllocFailed<T>> for HttpFault {
    ghost use Rattle.std.specs.Prelude.{◌≡◌};
    ghost use Rattle.wf_rest.specs.declared.faulting.HttpFault.TheVariants.{NoMemory as OutOfMemory};

    ghost from_gives = { λ _ fault. fault ≡ OutOfMemory };

    fn from(_refused: AllocFailed<T>) -> HttpFault {
        HttpFault::NoMemory
    }
}
