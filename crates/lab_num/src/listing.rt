//! The laws of keys and of listings. The functions here do nothing when they run: a proof that
//! needs a law calls the one whose contract it is.
ghost use Rattle.std.specs.Prelude.{◌≡◌, List};
ghost use Rattle.std.specs.Cmp.{IsTotalOrder};
ghost use Rattle.std.specs.List.Sorted.{IsPermutation, IsSortedByKey};
ghost use Rattle.lab_num.specs.declared.key.Key.{Key};
ghost use Rattle.lab_num.specs.Key.{key_cmp, KeysDiffer};
ghost use Rattle.lab_num.specs.Listing.{IsListing, listing};

use crate::key::Key;

/// Keys are totally ordered, and `cmp` compares them by time, then by board, then by number.
pub fn key_laws()
    ensures total { IsTotalOrder key_cmp }
    ensures compared { (a b : Key) → ⟦<Key as Ord>⟧.cmp a b ≡ key_cmp a b }
{}

/// For items of any type that has keys: where the keys differ, the items in rising order of key
/// are a listing of them, as is every other way to sort them by key; and whatever is a listing of
/// them is that list.
pub fn listing_laws<T>()
    ensures is_listing { (key : T → Key) (items : List T) →
        KeysDiffer key items → IsListing key items (listing key items) }
    ensures sorted { (key : T → Key) (items sorted : List T) →
        KeysDiffer key items → IsPermutation items sorted → IsSortedByKey key key_cmp sorted →
        IsListing key items sorted }
    ensures only { (key : T → Key) (items listed : List T) →
        IsListing key items listed → listed ≡ listing key items }
{}
