//! Laws of the definitions, each the contract of a function that does nothing.

ghost use Rattle.std.specs.Prelude.{◌≡◌, ℕ, List, Some, None};
ghost use Rattle.serde_json.specs.Data.{Data};
ghost use Rattle.wf_doc.specs.declared.doc.Doc.{Doc};
ghost use Rattle.wf_doc.specs.Json.{doc_of};
ghost use Rattle.wf_doc.specs.Read.{json_of};
ghost use Rattle.wf_doc.specs.Scan.{first_fault, outside};

/// A JSON text in which the scan finds no bad number token is a document: each of its numbers is whole and fits 64
/// signed bits.
pub fn scanned_json_is_a_document()
    ensures { (bytes : List ℕ) (j : Data) → first_fault outside bytes ≡ None → json_of bytes ≡ Some j
        → (d : Doc) × (doc_of j ≡ Some d) }
{}
