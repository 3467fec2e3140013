//! One step along a list.
ghost use Rattle.std.specs.Prelude.{◌≡◌, ◌∷◌, [], MatchOption};

// The first item, and what follows it.
pub(crate) fn first<T>(items: &[T]) -> Option<(&T, &[T])>
    ensures { MatchOption result (items.now ≡ []) (λ x. items.now ≡ x.0.now ∷ x.1.now) }
{
    match items {
        [] => None,
        [item, rest @ ..] => Some((item, rest)),
    }
}
