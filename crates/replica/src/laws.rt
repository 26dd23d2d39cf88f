//! Laws of the definitions, each the contract of a function that does nothing.
ghost use Rattle.std.specs.Prelude.{◌≡◌, ◌≢◌, List, ℕ, IsTrue};
ghost use Rattle.std.specs.Ordering.{is_le};
ghost use Rattle.tag.specs.Tags.{tag_cmp};
ghost use Rattle.replica.specs.Pairs.{Pair, Pairs, adopt, pair_of};
ghost use Rattle.replica.specs.Replicas.{pairs_after};
ghost use Rattle.replica.specs.declared.requests.Request.{Request};

/// A put changes no key but its own.
pub fn a_put_changes_its_key_alone()
    ensures { (pairs : Pairs) (key other : List ℕ) (pair : Pair) → other ≢ key
        → pair_of (adopt pairs key pair) other ≡ pair_of pairs other }
{}

/// After a put the key's tag is at least the one that was put.
pub fn a_put_is_kept()
    ensures { (pairs : Pairs) (key : List ℕ) (pair : Pair)
        → IsTrue (is_le (tag_cmp pair.tag (pair_of (adopt pairs key pair) key).tag)) }
{}

/// The tag of a key never falls, whatever is asked.
pub fn tags_never_fall()
    ensures { (pairs : Pairs) (request : Request) (key : List ℕ)
        → IsTrue (is_le (tag_cmp (pair_of pairs key).tag
        (pair_of (pairs_after pairs request) key).tag)) }
{}
