//! Where a text has its expressions.

ghost use Rattle.std.specs.Prelude.{◌≡◌, ◌<◌, ◌∷◌, ◌++◌, IfNone, IfSome, IsUtf8, length, map};
ghost use Rattle.std.specs.Option.{option_copied};
ghost use Rattle.wf_expr.specs.Parts.{byte, expression, only_expression, parts};

/// A text around its first expression.
#[derive(Clone, Copy)]
pub(crate) struct Cut<'t> {
    pub before: &'t str,
    pub expression: &'t str,
    pub after: &'t str,
}

/// None where the text has no expression: no `${` with a `}` behind it.
pub(crate) fn first_expression(text: &str) -> Option<Cut<'_>>
    ensures none { IfNone result (parts text.now ≡ map byte text.now) }
    ensures some { IfSome result (λ cut. parts text.now ≡ map byte cut.before.now ++ expression cut.expression.now ∷ parts cut.after.now) }
    ensures shorter { IfSome result (λ cut. length cut.after.now < length text.now) }
    ensures utf8 { IfSome result (λ cut. IsUtf8 cut.after.now) }
{
    let (before, rest) = text.split_once("${")?;
    let (expression, after) = rest.split_once('}')?;
    Some(Cut {
        before,
        expression,
        after,
    })
}

/// The expression that the whole text is.
pub(crate) fn whole_expression(text: &str) -> Option<&str>
    ensures { option_copied result ≡ only_expression (parts text.now) }
{
    let cut = first_expression(text)?;
    if cut.before.is_empty() && cut.after.is_empty() {
        Some(cut.expression)
    } else {
        None
    }
}
