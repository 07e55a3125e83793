//! Laws of the order, each the contract of a function that does nothing.

ghost use Rattle.std.specs.Prelude.{◌≡◌, List};
ghost use Rattle.wf_sorted.specs.declared.entry.Entry.{Entry as Placed};
ghost use Rattle.wf_sorted.specs.Order.{put, without};

/// Two entries may be put in in either order.
pub fn puts_commute()
    ensures { (a b : Placed) (entries : List Placed) → put a (put b entries) ≡ put b (put a entries) }
{}

/// Taking an entry out undoes putting it in.
pub fn taking_out_undoes_putting_in()
    ensures { (entry : Placed) (entries : List Placed) → without entry (put entry entries) ≡ entries }
{}
