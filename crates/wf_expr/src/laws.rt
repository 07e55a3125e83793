//! Laws of the definitions, each the contract of a function that does nothing.

ghost use Rattle.std.specs.Prelude.{◌≡◌, ◌≢◌, ◌<◌, ◌++◌, ◌∷◌, [], ℕ, List, Bool, ℤ, IsTrue, false, length, map};
ghost use Rattle.std.specs.List.{flat_map, list_all, list_any};
ghost use Rattle.std.specs.Str.Pattern.{LacksTextAt};
ghost use Rattle.wf_doc.specs.declared.fields.Entry.{Entry};
ghost use Rattle.wf_doc.specs.declared.doc.Doc.{Doc};
ghost use Rattle.wf_doc.specs.declared.doc.Doc as doc;
ghost use Rattle.wf_expr.specs.Filling.{Names, filled, filled_entry, filled_text};
ghost use Rattle.wf_expr.specs.Parts.{byte, ends_at_once, expression, is_closing, part_bytes, parts};

/// The parts of a text are all of it, one after another, and no expression holds a `}`.
pub fn a_text_is_its_parts()
    ensures whole { (text : List ℕ) → flat_map part_bytes (parts text) ≡ text }
    ensures ends { (text : List ℕ) → IsTrue (list_all ends_at_once (parts text)) }
{}

/// An expression begins at the first `${` that a `}` follows, and ends at the next `}`. A text that has none is bytes alone.
pub fn expressions_are_found_from_the_left()
    ensures first { (before inside after : List ℕ)
        → ((i : ℕ) → i < length before → LacksTextAt (36 ∷ 123 ∷ []) (before ++ 36 ∷ 123 ∷ (inside ++ 125 ∷ after)) i)
        → list_any is_closing inside ≡ false
        → parts (before ++ 36 ∷ 123 ∷ (inside ++ 125 ∷ after)) ≡ map byte before ++ expression inside ∷ parts after }
    ensures none { (text : List ℕ) → ((before inside after : List ℕ) → text ≢ before ++ 36 ∷ 123 ∷ (inside ++ 125 ∷ after))
        → parts text ≡ map byte text }
{}

/// A list is filled item by item and a table value by value, a text by its parts, and anything else stays.
pub fn documents_are_filled_part_by_part()
    ensures list { (names : Names) (items : List Doc) → filled names (doc.List items) ≡ doc.List (map (filled names) items) }
    ensures table { (names : Names) (entries : List (Entry Doc)) → filled names (doc.Table entries) ≡ doc.Table (map (filled_entry names) entries) }
    ensures text { (names : Names) (text : List ℕ) → filled names (doc.Text text) ≡ filled_text names text }
    ensures null { (names : Names) → filled names doc.Null ≡ doc.Null }
    ensures bool { (names : Names) (b : Bool) → filled names (doc.Bool b) ≡ doc.Bool b }
    ensures int { (names : Names) (z : ℤ) → filled names (doc.Int z) ≡ doc.Int z }
{}
