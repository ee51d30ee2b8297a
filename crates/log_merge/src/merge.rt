//! The lists of a round in rising order of key.
ghost use Rattle.std.specs.Prelude.{◌≡◌, IfOk};
ghost use Rattle.lab_num.specs.Key.{KeysDiffer};
ghost use Rattle.lab_num.specs.Listing.{IsListing, listing};
ghost use Rattle.dev_core.specs.Post.{entry_key, post_key};
ghost use Rattle.log_merge.specs.Merge.{all_entries};

use dev_core::{Entry, Post};
use lab_num::{NoMemory, listing_laws};
use std::alloc::Global;
use std::mem;

/// The entries of all the lists, one list after another.
fn join(alloc: Global, lists: &[Vec<Entry>]) -> Result<Vec<Entry>, NoMemory>
    ensures { IfOk result (λ joined. joined.items ≡ all_entries lists.now) }
{
    let mut joined = Vec::new(alloc);
    for list in lists {
        joined.extend_from_slice(list)?;
    }
    Ok(joined)
}

/// The entries of all the lists, one list after another. Those of one list stay where they are.
fn joined(alloc: Global, mut lists: Vec<Vec<Entry>>) -> Result<Vec<Entry>, NoMemory>
    ensures { IfOk result (λ joined. joined.items ≡ all_entries lists.items) }
{
    if lists.len() == 1 {
        return Ok(mem::replace(&mut lists[0], Vec::new(alloc)));
    }
    join(alloc, &lists)
}

/// The entries of all the lists together, in rising order of key.
pub fn merge_entries(alloc: Global, lists: Vec<Vec<Entry>>) -> Result<Vec<Entry>, NoMemory>
    requires { KeysDiffer entry_key (all_entries lists.items) }
    ensures is_listing { IfOk result (λ list.
        IsListing entry_key (all_entries lists.items) list.items) }
    ensures value { IfOk result (λ list. list.items ≡ listing entry_key (all_entries lists.items)) }
{
    listing_laws::<Entry>();
    let mut list = joined(alloc, lists)?;
    list.sort_by_key(|entry| entry.key)?;
    Ok(list)
}

/// The posts in rising order of key.
pub fn merge_posts(alloc: Global, mut list: Vec<Post>) -> Result<Vec<Post>, NoMemory>
    requires { KeysDiffer post_key list.items }
    ensures is_listing { IfOk result (λ merged. IsListing post_key list.items merged.items) }
    ensures value { IfOk result (λ merged. merged.items ≡ listing post_key list.items) }
{
    listing_laws::<Post>();
    list.as_mut_slice().sort_by_key(alloc, |post| post.key)?;
    Ok(list)
}
