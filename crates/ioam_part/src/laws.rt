//! Laws of parts. Each function says one by its contract, and does nothing.
ghost use Rattle.std.specs.Prelude.{◌≡◌, ◌++◌, List, Some, ℕ};
ghost use Rattle.ioam_dex.specs.Record.{IsRecord, Record, record_octets};
ghost use Rattle.ioam_pool.specs.Entry.{Entry};
ghost use Rattle.ioam_collect.specs.Best.{groups_of};
ghost use Rattle.ioam_collect.specs.Keyed.{keyed, keyed_of};
ghost use Rattle.ioam_collect.specs.declared.key.Key.{Key};
ghost use Rattle.ioam_part.specs.Part.{IsPart, JoinsTo, PartOf, item_octets};

/// Says that what is kept of a record with a key gives that record: put together of its version 1 record and its visit it has the
/// octets that records have.
pub fn items_tell_their_records()
    ensures { (x : Record) (p : Key × Entry) → IsRecord x → keyed_of x ≡ Some p → item_octets p.1 ≡ record_octets x }
{}

/// Says that groups have one part, and octets are the part of one list of records: two parts are equal octets exactly
/// where their groups are equal.
pub fn parts_have_one_spelling()
    ensures octets { (one two : List ℕ) (groups : List (Key × List Entry)) → PartOf one groups → PartOf two groups → one ≡ two }
    ensures records { (octets : List ℕ) (xs ys : List Record) → IsPart octets xs → IsPart octets ys → xs ≡ ys }
    ensures groups { (octets : List ℕ) (ps qs : List (Key × Entry)) → PartOf octets (groups_of ps) → PartOf octets (groups_of qs)
        → groups_of ps ≡ groups_of qs }
{}

/// Says that the part of some records, joined with the part of others, is the part of all of them, and no other octets are.
pub fn joined_parts_are_of_all()
    ensures is { (one two both : List ℕ) (xs ys : List Record) → PartOf one (groups_of (keyed xs)) → PartOf two (groups_of (keyed ys))
        → JoinsTo one two both → PartOf both (groups_of (keyed (xs ++ ys))) }
    ensures only { (one two both all : List ℕ) (xs ys : List Record) → PartOf one (groups_of (keyed xs)) → PartOf two (groups_of (keyed ys))
        → JoinsTo one two both → PartOf all (groups_of (keyed (xs ++ ys))) → both ≡ all }
{}

/// Says that joining parts is commutative, associative and idempotent, octet for octet.
pub fn joining_parts_is_a_union()
    ensures swaps { (one two both other : List ℕ) → JoinsTo one two both → JoinsTo two one other → both ≡ other }
    ensures associates { (one two three front back both other : List ℕ) → JoinsTo one two front → JoinsTo front three both
        → JoinsTo two three back → JoinsTo one back other → both ≡ other }
    ensures repeats { (one both : List ℕ) → JoinsTo one one both → both ≡ one }
{}
