//! The fields of tables, as definitions and requests read them: a field that is null counts as absent.
#![tactic(auto)]

mod fields;

pub use fields::{
    Form, as_count, as_whole, first_misformed, first_misnumbered, given, has_form, is_absent,
    is_absent_or_formed, is_absent_or_number, is_absent_or_one_of, is_among, is_formed, is_number,
    is_one_of, is_text, items_in, items_of, number_or, table_in, text_in, truth_or, unless,
};
