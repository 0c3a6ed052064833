//! Laws of lists put in order.

ghost use Rattle.std.specs.Prelude.{◌≡◌, List, Contains, IsPermutation, IsSorted};
ghost use Rattle.std.specs.Cmp.{IsTotalOrder};
ghost use Rattle.std.specs.declared.cmp.Ordering.{Ordering};
ghost use Rattle.std.specs.declared.cmp.Ordering.TheVariants.{Equal};
ghost use Rattle.chew_spec_dictionary.specs.Order.{in_order};

/// A list put in order is sorted, and has the elements of the list.
pub fn lists_in_order<T>()
    ensures sorted { (cmp : T → T → Ordering) → IsTotalOrder cmp → (xs : List T) → IsSorted cmp (in_order cmp xs) }
    ensures permutation { (cmp : T → T → Ordering) (xs : List T) → IsPermutation xs (in_order cmp xs) }
{}

/// Where only equal elements tie, it doesn't matter in which order a list was before: there is one
/// sorted list of its elements, and that is the list in order.
pub fn one_list_in_order<T>()
    ensures same { (cmp : T → T → Ordering) → IsTotalOrder cmp → (xs ys : List T)
        → ((x y : T) → Contains xs x → Contains xs y → cmp x y ≡ Equal → x ≡ y) → IsPermutation xs ys → in_order cmp xs ≡ in_order cmp ys }
    ensures only { (cmp : T → T → Ordering) → IsTotalOrder cmp → (xs ys : List T)
        → ((x y : T) → Contains xs x → Contains xs y → cmp x y ≡ Equal → x ≡ y) → IsPermutation xs ys → IsSorted cmp ys → in_order cmp xs ≡ ys }
{}
