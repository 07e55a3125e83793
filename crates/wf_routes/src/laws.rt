//! Laws of the table. Each function does nothing: what it ensures is the law.

ghost use Rattle.std.specs.Prelude.{◌≡◌, true};
ghost use Rattle.wf_routes.specs.Laws.{each_goes_first, methods_rise};
ghost use Rattle.wf_routes.specs.Table.{path_row, paths};

use crate::table::Path;

/// Of any two paths of the table, the earlier has no parameter at the first segment where their
/// patterns differ: a static segment goes before a parameter.
pub fn static_segments_go_first()
    ensures { each_goes_first paths ≡ true }
{}

/// The calls of a path stand in the order of their methods' names, each method once.
pub fn methods_rise(path: Path)
    ensures { methods_rise (path_row path).calls ≡ true }
{}
