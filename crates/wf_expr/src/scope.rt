//! What paths name.

ghost use Rattle.std.specs.Prelude.{◌≡◌, IfOk};
ghost use Rattle.std.specs.Option.{option_copied};
ghost use Rattle.wf_expr.specs.Filling.{named};

use std::alloc::Global;
use wf_doc::{Doc, NoMemory, Path};

/// What each path names, as a function `names` to contracts.
pub trait Scope {
    ghost use Rattle.std.specs.Prelude.{◌≡◌, List, Option};
    ghost use Rattle.std.specs.Option.{option_copied};
    ghost use Rattle.wf_doc.specs.declared.doc.Doc.{Doc};
    ghost use Rattle.wf_doc.specs.declared.path.Step.{Step};

    ghost names: { Self → List Step → Option Doc };

    /// The value that the whole path names.
    fn find(&self, path: &Path) -> Option<&Doc>
        ensures { option_copied result ≡ names self.now path.now };
}

/// The value that the expression names. A text that is no path names nothing.
pub(crate) fn named<'s, S: Scope>(
    alloc: Global,
    expression: &str,
    scope: &'s S,
) -> Result<Option<&'s Doc>, NoMemory>
    ensures { IfOk result (λ found. option_copied found ≡ named (S.names scope.now) expression.now) }
{
    match Path::read(alloc, expression)? {
        Some(path) => Ok(scope.find(&path)),
        None => Ok(None),
    }
}
