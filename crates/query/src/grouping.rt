// What a listing or a count goes over: an area or a 3d range.
// Kept (5): `IsFormed tree`, `tree.count ≤ limit_most`: as in tree/src/stored, the functions there are for trees that are yet to be tested too.
ghost use Rattle.std.specs.Prelude.{◌≡◌, Bool, true, List, ℕ, ◌≤◌, length};
ghost use Rattle.laws.specs.Lists.{put};
ghost use Rattle.layout.specs.Marks.{marks_of};
ghost use Rattle.data_model.specs.Path.{field, legal};
ghost use Rattle.data_model.specs.Range.{legal_range};
ghost use Rattle.data_model.specs.Ignore.{no_flags};
ghost use Rattle.data_model.specs.declared.query_ignore_params.QueryIgnoreParams.{QueryIgnoreParams};
ghost use Rattle.tree.specs.Stored.{Stored};
ghost use Rattle.tree.specs.Matching.{in_area, in_range, listed_in_area, listed_in_range};
ghost use Rattle.tree.proofs.TestLaws.{unflagged-area, unflagged-range};
ghost use Rattle.tree.specs.Lent.{IsFormed, contents_in};

use data_model::area::Area;
use data_model::query_ignore_params::QueryIgnoreParams;
use data_model::range_3d::Range3d;
use tree::by_value::{is_legal, is_legal_range};
use tree::stored::Tree;

// A choice of entries.
pub trait Grouping: Copy {
    // Whether the paths that are looked at are legal.
    ghost legal: { Self → Bool };
    // Whether it includes an entry.
    ghost includes: { Self → Stored → Bool };
    // Whether it includes an entry that the flags let through.
    ghost lists: { Self → QueryIgnoreParams → Stored → Bool };

    // Whether the paths that are looked at are legal.
    fn is_legal(self) -> bool
        ensures { result ≡ legal self };

    // Marks the records of a tree that it includes and the flags let through.
    fn mark(self, tree: Tree, ignore: QueryIgnoreParams, marks: &mut [u8])
        requires { (IsFormed tree) × (tree.count ≤ length marks.old) × (legal self ≡ true) }
        ensures { (ns : List ℕ) → marks.new ≡ put (marks_of (lists self ignore) (contents_in tree.entry ns)) marks.old };

    // Flags that ignore nothing let every entry through.
    ghost unflagged: { (g : Self) (ignore : QueryIgnoreParams) → ignore ≡ no_flags → (x : Stored) → lists g ignore x ≡ includes g x };
}

impl Grouping for Area {
    ghost legal = { λ area. legal field area.path };

    ghost includes = { in_area };

    ghost lists = { listed_in_area };

    ghost unflagged = { λ area ignore e. unflagged-area ignore e area };

    fn is_legal(self) -> bool {
        is_legal(self.path)
    }

    fn mark(self, tree: Tree, ignore: QueryIgnoreParams, marks: &mut [u8]) {
        tree.mark_area(self, ignore, marks);
    }
}

impl Grouping for Range3d {
    ghost legal = { λ range. legal_range field range.paths };

    ghost includes = { in_range };

    ghost lists = { listed_in_range };

    ghost unflagged = { λ range ignore e. unflagged-range ignore e range };

    fn is_legal(self) -> bool {
        is_legal_range(self.paths)
    }

    fn mark(self, tree: Tree, ignore: QueryIgnoreParams, marks: &mut [u8]) {
        tree.mark_range(self, ignore, marks);
    }
}
