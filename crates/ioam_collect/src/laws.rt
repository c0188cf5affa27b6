//! Laws of groups that are joined. Each function says one by its contract, and does nothing.
ghost use Rattle.std.specs.Prelude.{◌≡◌, ◌++◌, ◌∷◌, [], List};
ghost use Rattle.std.specs.declared.cmp.Ordering.TheVariants.{Less};
ghost use Rattle.ioam_pool.specs.Entry.{Entry};
ghost use Rattle.ioam_collect.specs.Best.{groups_of, kept_of};
ghost use Rattle.ioam_collect.specs.Join.{AreGroups, SameMembers, Tree, joined, leaves, merged, pairs_in};
ghost use Rattle.ioam_collect.specs.Unite.{AreApart, AreNeighbours, MayFollow, pair_meet, united};
ghost use Rattle.ioam_collect.specs.declared.key.Key.{Key};

/// Says that the groups of two lists, joined, are the groups of both lists one behind the other.
pub fn groups_join()
    ensures { (ps qs : List (Key × Entry)) → joined (groups_of ps) (groups_of qs) ≡ groups_of (ps ++ qs) }
{}

/// Says that joining is commutative, associative and idempotent.
pub fn joining_is_a_union()
    ensures swaps { (gs hs : List (Key × List Entry)) → joined gs hs ≡ joined hs gs }
    ensures associates { (fs gs hs : List (Key × List Entry)) → joined (joined fs gs) hs ≡ joined fs (joined gs hs) }
    ensures repeats { (gs : List (Key × List Entry)) → AreGroups gs → joined gs gs ≡ gs }
{}

/// Says that any tree of joins gives the groups of all pairs of its leaves, and that trees over the same pairs, in any
/// order and with any repeats, give the same groups.
pub fn any_tree_joins()
    ensures leaves { (tree : Tree) → merged tree ≡ groups_of (leaves tree) }
    ensures same { (tree other : Tree) → SameMembers (leaves tree) (leaves other) → merged tree ≡ merged other }
{}

/// Says that groups, one behind the other, are what is kept.
pub fn groups_tell_what_is_kept()
    ensures { (ps : List (Key × Entry)) → pairs_in (groups_of ps) ≡ kept_of ps }
{}

/// Says that what is kept of two lists in order, in which no two tie, is found by going along them side by side.
pub fn side_by_side()
    ensures kept { (ps qs : List (Key × Entry)) → AreApart ps → AreApart qs → united ps qs ≡ kept_of (ps ++ qs) }
    ensures all { (ps : List (Key × Entry)) → AreApart ps → kept_of ps ≡ ps }
    ensures apart { (ps : List (Key × Entry)) → AreApart (kept_of ps) }
{}

/// Says that whether pairs are in order, and no two tie, is told by comparing each with the next.
pub fn neighbours_tell()
    ensures apart { (ps : List (Key × Entry)) → AreNeighbours ps → AreApart ps }
    ensures follows { (ps : List (Key × Entry)) (last next : Key × Entry) → AreApart (ps ++ last ∷ []) → pair_meet last next ≡ Less → MayFollow ps last next }
    ensures may { (ps : List (Key × Entry)) (last next : Key × Entry) → MayFollow ps last next → pair_meet last next ≡ Less }
{}
