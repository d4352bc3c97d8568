//! Parses the lists in options.
ghost use Rattle.std.specs.Prelude.{◌≡◌, ◌==◌, ℕ, Bool, IfOk, List, [], ◌∷◌, None, Option};
ghost use Rattle.std.specs.Prelude.{Some, map};
ghost use Rattle.std.specs.Prelude.{if◌then◌else◌, option_map};
ghost use Rattle.std.specs.List.{list_any, slice_split};
ghost use Rattle.sub_words.specs.Texts.{comma, list_after_texts, list_of_text};

use std::alloc::{AllocError, Allocator};

/// The maximum number of items in a list of an option.
const MAX_ITEMS: usize = 64;

/// An item of a list that one text of an option describes, or several texts, one for each item.
pub trait Item: Copy {
    /// The function from a text to an item.
    ghost parsed: { List ℕ → Option Self };

    /// The test whether two items must not be in the same list.
    ghost same: { Self → Self → Bool };

    /// Returns the item that a text describes, or `None` if the text describes no item.
    fn read(text: &str) -> Option<Self>
        ensures { result ≡ parsed text.now };

    /// Returns whether the two items must not be in the same list.
    fn is_same(&self, other: &Self) -> bool
        ensures { result ≡ same self.now other.now };
}

/// Parses a list: 1 to 64 items, separated by commas, no two of which are the same by `is_same`.
/// Returns `None` for any other text.
///
/// Works with any allocator, so that a test can let an allocation fail.
///
/// # Errors
///
/// Fails if memory runs out.
pub fn parse_list<A: Allocator + Copy + Drop, T: Item + Drop>(
    alloc: A,
    text: &str,
) -> Result<Option<Vec<T, A>>, AllocError>
    ensures { IfOk result (λ list.
        option_map (λ v. v.items) list ≡ list_of_text T.parsed T.same text.now) }
{
    let texts = texts_of(alloc, text)?;
    if texts.len() > MAX_ITEMS {
        return Ok(None);
    }
    parse_items(alloc, texts.as_slice())
}

// Splits a text at its commas.
fn texts_of<A: Allocator>(alloc: A, text: &str) -> Result<Vec<&str, A>, AllocError>
    ensures { IfOk result (λ texts.
        map (λ x. x.now) texts.items ≡ slice_split (λ c. c == comma) text.now) }
{
    text.split(',').collect(alloc)
}

/// Returns the items of the texts, or `None` if a text is no item, or an item is the same as an
/// earlier item by `is_same`.
///
/// # Errors
///
/// Fails if memory runs out.
pub fn parse_items<A: Allocator + Drop, T: Item + Drop>(
    alloc: A,
    texts: &[&str],
) -> Result<Option<Vec<T, A>>, AllocError>
    ensures { IfOk result (λ list. option_map (λ v. v.items) list
        ≡ list_after_texts T.parsed T.same [] (map (λ x. x.now) texts.now)) }
{
    let mut list = Vec::new(alloc);
    let all = add_items(&mut list, texts)?;
    Ok(if all { Some(list) } else { None })
}

// Appends the items of the texts to a list, up to the first text that is no item or repeats an
// earlier item. Returns whether all items were added.
fn add_items<A: Allocator, T: Item>(
    list: &mut Vec<T, A>,
    texts: &[&str],
) -> Result<bool, AllocError>
    ensures { IfOk result (λ all.
        list_after_texts T.parsed T.same list.old.items (map (λ x. x.now) texts.now)
        ≡ (if all then Some list.new.items else None)) }
{
    for text in texts {
        if !add_item(list, text)? {
            return Ok(false);
        }
    }
    Ok(true)
}

// Appends the item of a text to a list. Returns `false` if the text is no item or repeats an
// earlier item.
fn add_item<A: Allocator, T: Item>(list: &mut Vec<T, A>, text: &str) -> Result<bool, AllocError>
    ensures { IfOk result (λ added. (more : List (List ℕ))
        → list_after_texts T.parsed T.same list.old.items (text.now ∷ more)
        ≡ (if added then list_after_texts T.parsed T.same list.new.items more else None)) }
{
    let Some(item) = T::read(text) else {
        return Ok(false);
    };
    if is_listed(&item, list.as_slice()) {
        return Ok(false);
    }
    list.push(item)?;
    Ok(true)
}

// Returns whether a list contains an item that is the same as `item` by `is_same`.
fn is_listed<T: Item>(item: &T, list: &[T]) -> bool
    ensures { result ≡ list_any (T.same item.now) list.now }
{
    for other in list {
        if item.is_same(other) {
            return true;
        }
    }
    false
}
